// A bay of rolls: a store reads its serial numbers in their order.
ghost use Rattle.std.specs.Prelude.{◌≡◌, ℕ, [], length};
ghost use Rattle.bay.specs.Rolls.{roll_readings};
ghost use Rattle.bay.specs.Filling.{Filling};
ghost use Rattle.bay.specs.Rolled.{rolls_few, rolls_words};
ghost use Rattle.std.proofs.Common.{rules};

use crate::roll::Roll;
use crate::{Bay, BayFault, STORES};
use std::array;

// The most serial numbers that a roll takes.
pub const MOST_SERIALS: usize = 32;

#[derive(Drop)]
pub struct RollBay {
    rolls: [Roll; 8],
}

impl Bay for RollBay {
    ghost readings = { λ b. roll_readings b.rolls };

    ghost few = { λ b k. rolls_few b.rolls k };

    ghost eight = { Prim.search rules };

    ghost words = { λ b k. rolls_words b.rolls k };

    fn stock(&self, store: u8) -> u16 {
        self.rolls.get(usize::from(store)).map_or(0, Roll::left)
    }

    fn draw(&mut self, store: u8) -> Option<u32> {
        // A slice's `get_mut` tells nothing of what is written through it, so the store is tested by hand.
        if store >= STORES {
            return None;
        }
        let roll = &mut self.rolls[usize::from(store)];
        roll.shorten()
    }
}

impl RollBay {
    // Every store is empty.
    pub fn new() -> RollBay
        ensures { (k : ℕ) → roll_readings result.rolls k ≡ [] }
    {
        RollBay {
            rolls: array::from_fn(|_| Roll::new()),
        }
    }

    // Sets one store's serial numbers.
    pub fn fill(&mut self, store: u8, serials: &[u32]) -> Result<(), BayFault>
        ensures { Filling (λ (b : RollBay). roll_readings b.rolls) store (length serials.now) 32 serials.now self.old result self.new }
    {
        let over = BayFault::Over(store);
        // tested by hand, as in `draw`
        if store >= STORES {
            return Err(over);
        }
        self.rolls[usize::from(store)] = Roll::try_from(serials).map_err(|_| over)?;
        Ok(())
    }
}
