ghost use Rattle.std.specs.Prelude.{◌≡◌, ◌<◌, ◌≤◌, [], length, MatchResult};
ghost use Rattle.bay.specs.Readings.{Shortens, Unmoved};
ghost use Rattle.bay.specs.Rolls.{roll_of};

use super::Roll;
use arrayvec::{ArrayVec, CapacityError};

// A roll with these serial numbers to come, in their order.
impl TryFrom<&[u32]> for Roll {
    type Error = CapacityError;

    ghost try_from_gives = { λ s r. MatchResult r (λ roll. (roll_of roll ≡ s.now) × (length s.now ≤ 32)) (λ _. 32 < length s.now) };

    fn try_from(serials: &[u32]) -> Result<Roll, CapacityError> {
        let mut serials = ArrayVec::try_from(serials)?;
        serials.reverse();
        Ok(Roll { serials })
    }
}

impl Roll {
    pub(crate) fn new() -> Roll
        ensures { roll_of result ≡ [] }
    {
        Roll {
            serials: ArrayVec::new(),
        }
    }

    pub(crate) fn left(&self) -> u16
        ensures { result ≡ length (roll_of self.now) }
    {
        self.serials.len() as u16
    }

    // Takes the next serial number off; none, and nothing changed, at the end.
    pub(crate) fn shorten(&mut self) -> Option<u32>
        ensures shortens { Shortens (roll_of self.old) result (roll_of self.new) }
        ensures refused { Unmoved result self.old self.new }
    {
        self.serials.pop()
    }
}
