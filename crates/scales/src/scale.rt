// What every scale has: its operations, each tied to its meaning, and the laws that it owes.
ghost use Rattle.std.specs.Prelude.{◌≡◌};
ghost use Rattle.scales.specs.Laws.{Laws, Ops};

// The most uses that a grade allows: a count, or no bound. Counts lie by size, no bound above them all.
// Not an `Option`: its `None` lies below every `Some`, so the derived order would be turned.
#[derive(Clone, Copy, PartialEq, Eq, PartialOrd, Ord, Debug)]
pub enum Ceiling {
    Count(u16),
    Unbounded,
}

// One trait, and not `Add`, `Mul` and `PartialOrd`, since the laws tie the operations to one another.
pub trait Scale: Copy {
    ghost ops: { Ops Self };

    // No use.
    fn zero() -> Self
        ensures { result ≡ ops.zero };

    // One use.
    fn one() -> Self
        ensures { result ≡ ops.one };

    // Uses of one part and uses of another.
    fn add(self, other: Self) -> Self
        ensures { result ≡ ops.plus self other };

    // What is used `other` each time, used `self` times.
    fn mul(self, other: Self) -> Self
        ensures { result ≡ ops.times self other };

    // Whether every use that `self` allows is one that `other` allows.
    fn leq(self, other: Self) -> bool
        ensures { result ≡ ops.leq self other };

    // The least grade at or above both.
    fn join(self, other: Self) -> Self
        ensures { result ≡ ops.join self other };

    fn ceiling(self) -> Ceiling
        ensures { result ≡ ops.ceiling self };

    ghost lawful: { Laws ops };
}
