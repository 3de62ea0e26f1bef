ghost use Rattle.bay.specs.Readings.{RollHolds};

mod methods;

use crate::MOST_SERIALS;
use arrayvec::ArrayVec;

// The serial numbers to come, the next one last, so that `pop` takes it.
#[derive(Drop)]
pub struct Roll {
    serials: ArrayVec<u32, MOST_SERIALS>,
    ghost holds: { RollHolds serials.items },
}
