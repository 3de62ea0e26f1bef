// Bays: eight stores, each with the readings that are to come.
#![tactic(auto)]

ghost use Rattle.std.specs.Prelude.{◌≡◌, ℕ, ◌^◌, ◌<◌, ◌≤◌, List, [], length};
ghost use Rattle.bay.specs.Readings.{Draws, DrawsInto, Unmoved, Words};

pub mod counter;
mod counts;
pub mod fault;
pub mod kept_back;
mod roll;
pub mod roll_bay;
#[cfg(test)]
mod tests;

pub use counter::CounterBay;
pub use fault::BayFault;
pub use kept_back::KeptBack;
pub use roll_bay::{MOST_SERIALS, RollBay};

// Stores are numbered from 0.
pub const STORES: u8 = 8;

// The most readings that a store has.
pub const MOST_READINGS: u16 = 9999;

pub trait Bay {
    // the readings to come of each store, first the next one
    ghost readings: { Self → ℕ → List ℕ };

    // How many readings a store has to come; 0 for a store above 7.
    fn stock(&self, store: u8) -> u16
        ensures { result ≡ length (readings self.now store) };

    // The first reading of a store, taken off; none, and nothing moved, where there is none.
    fn draw(&mut self, store: u8) -> Option<u32>
        ensures draws { Draws (readings self.old) store result (readings self.new) }
        ensures refused { Unmoved result self.old self.new };

    ghost few: { (b : Self) (k : ℕ) → length (readings b k) ≤ 9999 };

    ghost eight: { (b : Self) (k : ℕ) → 8 ≤ k → readings b k ≡ [] };

    ghost words: { (b : Self) (k : ℕ) → Words (readings b k) };
}

// Draws from a store as often as `places` has places, until the store is empty, and answers how many readings came.
pub fn draw_into<B: Bay>(bay: &mut B, store: u8, places: &mut [u32]) -> usize
    ensures { DrawsInto (B.readings bay.old) store places.old result places.new (B.readings bay.new) }
{
    for (came, place) in places.iter_mut().enumerate() {
        let Some(reading) = bay.draw(store) else {
            return came;
        };
        *place = reading;
    }
    places.len()
}
