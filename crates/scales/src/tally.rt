// None, one, or many: the coarsest scale. Only none and one lie below many, so their join is many.
ghost use Rattle.scales.specs.Tally.{tally_ops};
ghost use Rattle.scales.specs.Text.{tally_text};
ghost use Rattle.std.specs.Prelude.{Some};
ghost use Rattle.scales.specs.TallyLaws.{tally_laws};

use crate::scale::{Ceiling, Scale};
use std::fmt;

#[derive(Clone, Copy, PartialEq, Eq, Debug)]
pub enum Tally {
    Zero,
    One,
    Many,
}

impl Scale for Tally {
    ghost ops = { tally_ops };

    ghost lawful = { tally_laws };

    fn zero() -> Tally {
        Tally::Zero
    }

    fn one() -> Tally {
        Tally::One
    }

    fn add(self, other: Tally) -> Tally {
        match (self, other) {
            (Tally::Zero, x) | (x, Tally::Zero) => x,
            _ => Tally::Many,
        }
    }

    fn mul(self, other: Tally) -> Tally {
        match (self, other) {
            (Tally::Zero, _) | (_, Tally::Zero) => Tally::Zero,
            (Tally::One, x) | (x, Tally::One) => x,
            _ => Tally::Many,
        }
    }

    fn leq(self, other: Tally) -> bool {
        self == other || other == Tally::Many
    }

    // Case by case: `self == other` alone is quicker where many tallies are joined into one, and several times slower
    // where what each join gives is looked at.
    fn join(self, other: Tally) -> Tally {
        if self == Tally::Zero && other == Tally::Zero {
            Tally::Zero
        } else if self == Tally::One && other == Tally::One {
            Tally::One
        } else {
            Tally::Many
        }
    }

    fn ceiling(self) -> Ceiling {
        match self {
            Tally::Zero => Ceiling::Count(0),
            Tally::One => Ceiling::Count(1),
            Tally::Many => Ceiling::Unbounded,
        }
    }
}

impl fmt::Display for Tally {
    ghost output = { λ t. Some (tally_text t) };

    fn fmt<W: fmt::Write>(&self, f: &mut fmt::Formatter<W>) -> fmt::Result {
        f.write_str(match self {
            Tally::Zero => "none",
            Tally::One => "one",
            Tally::Many => "many",
        })
    }
}
