// The high end of a span: a count up to 9,999, or infinity.
ghost use Rattle.std.specs.Prelude.{◌≡◌, Some};
ghost use Rattle.scales.specs.Text.{ceiling_text};
ghost use Rattle.scales.specs.Ends.{capped, end_plus, end_times, end_max, end_min};

use crate::scale::Ceiling;
use std::fmt;

// The greatest count that an end can be.
pub const TOP: u16 = 9_999;

// A count that would pass it is infinite.
fn at_end(n: u32) -> Ceiling
    ensures { result ≡ capped n }
{
    if n <= u32::from(TOP) {
        Ceiling::Count(n as u16)
    } else {
        Ceiling::Unbounded
    }
}

impl Ceiling {
    pub(crate) fn plus(self, other: Ceiling) -> Ceiling
        ensures { result ≡ end_plus self other }
    {
        match (self, other) {
            (Ceiling::Count(m), Ceiling::Count(n)) => at_end(u32::from(m) + u32::from(n)),
            _ => Ceiling::Unbounded,
        }
    }

    pub(crate) fn times(self, other: Ceiling) -> Ceiling
        ensures { result ≡ end_times self other }
    {
        match (self, other) {
            (Ceiling::Count(m), Ceiling::Count(n)) => at_end(u32::from(m) * u32::from(n)),
            (Ceiling::Count(0), _) | (_, Ceiling::Count(0)) => Ceiling::Count(0),
            _ => Ceiling::Unbounded,
        }
    }

    // By cases, as in `lower`: with the derived `max`, `min` or `<=` most joins of spans and ceilings of pairs take longer.
    pub(crate) fn higher(self, other: Ceiling) -> Ceiling
        ensures { result ≡ end_max self other }
    {
        match (self, other) {
            (Ceiling::Count(m), Ceiling::Count(n)) => Ceiling::Count(m.max(n)),
            _ => Ceiling::Unbounded,
        }
    }

    pub(crate) fn lower(self, other: Ceiling) -> Ceiling
        ensures { result ≡ end_min self other }
    {
        match (self, other) {
            (Ceiling::Count(m), Ceiling::Count(n)) => Ceiling::Count(m.min(n)),
            (c, Ceiling::Unbounded) | (Ceiling::Unbounded, c) => c,
        }
    }
}

impl fmt::Display for Ceiling {
    ghost output = { λ c. Some (ceiling_text c) };

    fn fmt<W: fmt::Write>(&self, f: &mut fmt::Formatter<W>) -> fmt::Result {
        match self {
            Ceiling::Count(n) => write!(f, "{n}"),
            Ceiling::Unbounded => f.write_str("inf"),
        }
    }
}
