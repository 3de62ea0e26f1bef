// Sets of numbers of uses. A set is kept as a mask, since grades are copied and lie in fixed memory: bit n
// stands if n is a member.
ghost use Rattle.std.specs.Prelude.{◌≡◌, ◌<◌, ℕ, Some, MatchOption};
ghost use Rattle.scales.specs.Text.{set_text};
ghost use Rattle.scales.specs.Masks.{bit, sum, product, union_after};
ghost use Rattle.scales.specs.Set.{set_ops, member, AreMembers, ByMembers, Holds};
ghost use Rattle.scales.specs.SetLaws.{set_laws};

use super::Set;
use crate::scale::{Ceiling, Scale};
use std::fmt;

// The highest member, which stands for itself and for all above.
pub const TOP: u16 = 15;

#[tactic(auto, using(crate::proofs::SetCode::bit_test))]
fn has(mask: u16, n: u16) -> bool
    requires { n < 16 }
    ensures { result ≡ bit mask n }
{
    (mask >> n) & 1 == 1
}

// One more than each member, at most 15.
#[tactic(auto, using(crate::proofs::SetCode::stepped_is))]
fn next(mask: u16) -> u16
    ensures { result ≡ sum 2 mask }
{
    ((mask & 0x7fff) << 1) | (mask & 0x8000)
}

// The union, over the members n of `counts`, of what `first` is after n steps.
fn union_after<F: Fn(u16) -> u16>(counts: u16, first: u16, step: F) -> u16
    requires { F.IsAlwaysCallable step }
    ensures { (next : ℕ → ℕ) → ((m r : ℕ) → F.post step m r → r ≡ next m) → result ≡ union_after next counts first }
{
    let mut all = 0;
    let mut stepped = first;
    for n in 0..16 {
        if has(counts, n) {
            all |= stepped;
        }
        stepped = step(stepped);
    }
    all
}

// Each member of `b` is raised by each member of `a`.
fn sum_of_masks(a: u16, b: u16) -> u16
    ensures { result ≡ sum a b }
{
    union_after(a, b, next)
}

// For each member n of `a`, `b` is summed n times.
fn product_of_masks(a: u16, b: u16) -> u16
    ensures { result ≡ product a b }
{
    union_after(a, 1, |repeated| sum_of_masks(b, repeated))
}

impl Set {
    // The set of these members; refused exactly if there are none, or one is above 15.
    pub fn new(members: &[u16]) -> Option<Set>
        ensures { MatchOption result (AreMembers members.now → ⊥) (λ s. AreMembers members.now × Holds s members.now) }
    {
        let mut mask: u16 = 0;
        for &n in members {
            if n > TOP {
                return None;
            }
            mask |= 1 << n;
        }
        if mask > 0 { Some(Set { mask }) } else { None }
    }

    // Whether n is a member; no number above 15 is one.
    #[tactic(auto, using(crate::proofs::SetCode::none_above))]
    pub fn contains(self, n: u16) -> bool
        ensures { result ≡ member self n }
    {
        n <= TOP && has(self.mask, n)
    }
}

// What the operations are, by members alone.
#[tactic(auto, using(crate::proofs::SetMembers::by_members))]
pub fn by_members()
    ensures { ByMembers }
{}

impl Scale for Set {
    ghost ops = { set_ops };

    ghost lawful = { set_laws };

    fn zero() -> Set {
        Set { mask: 1 }
    }

    fn one() -> Set {
        Set { mask: 2 }
    }

    // What a sum and a product share is `union_after`: the literal left would be no shorter as one function.
    #[tactic(auto, using(crate::specs::Masks::sum_pos))]
    fn add(self, other: Set) -> Set {
        Set {
            mask: sum_of_masks(self.mask, other.mask),
        }
    }

    #[tactic(auto, using(crate::specs::Masks::product_pos))]
    fn mul(self, other: Set) -> Set {
        Set {
            mask: product_of_masks(self.mask, other.mask),
        }
    }

    fn leq(self, other: Set) -> bool {
        self.mask & other.mask == self.mask
    }

    fn join(self, other: Set) -> Set {
        Set {
            mask: self.mask | other.mask,
        }
    }

    // In 32 bits: there `ilog2` takes fewer steps than in 16.
    #[tactic(auto, using(crate::proofs::SetCode::highest_is))]
    fn ceiling(self) -> Ceiling {
        let top = u32::from(self.mask).ilog2() as u16;
        if top < TOP {
            Ceiling::Count(top)
        } else {
            Ceiling::Unbounded
        }
    }
}

// The members from the least, in braces and with commas between them.
impl fmt::Display for Set {
    ghost output = { λ s. Some (set_text s) };

    fn fmt<W: fmt::Write>(&self, f: &mut fmt::Formatter<W>) -> fmt::Result {
        f.write_str("{")?;
        let mut separator = "";
        for n in 0..16 {
            if self.contains(n) {
                write!(f, "{separator}{n}")?;
                separator = ",";
            }
        }
        f.write_str("}")
    }
}
