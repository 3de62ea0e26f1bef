// From a low to a high number of uses. The functions stand in `ops`, below, since their contracts cite
// definitions about this type.
ghost use Rattle.std.specs.Prelude.{◌≤◌};
ghost use Rattle.scales.specs.Ends.{greatest, room, size};

use crate::scale::Ceiling;

pub mod ops;

#[derive(Clone, Copy)]
pub struct Span {
    low: u16,
    high: Ceiling,
    ghost fits: { low ≤ greatest },
    ghost order: { low ≤ size high },
    ghost proper: { room high ≤ greatest },
}
