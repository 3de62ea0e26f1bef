// One count for each store.
ghost use Rattle.std.specs.Prelude.{◌≡◌, OnErr, replicate, slice_index};
ghost use Rattle.bay.specs.Readings.{counter_readings, Draws, Few, Unmoved};
ghost use Rattle.bay.specs.Filling.{Counted};

use crate::{BayFault, MOST_READINGS, STORES};

#[derive(Drop)]
pub struct Counts {
    each: [u16; 8],
    ghost few: { Few each },
}

impl Counts {
    pub(crate) fn new() -> Counts
        ensures { result.each ≡ replicate 8 0 }
    {
        Counts { each: [0; 8] }
    }

    // The count of a store; 0 for a store above the last.
    pub(crate) fn get(&self, store: u8) -> u16
        ensures { result ≡ slice_index self.now.each store }
    {
        self.each.get(usize::from(store)).copied().unwrap_or(0)
    }

    pub(crate) fn set(&mut self, store: u8, count: u16) -> Result<(), BayFault>
        ensures counted { Counted store count self.old.each result self.new.each }
        ensures refused { OnErr result (self.new ≡ self.old) }
    {
        // A slice's `get_mut` tells nothing of what is written through it, so the store is tested by hand.
        if store >= STORES || count > MOST_READINGS {
            return Err(BayFault::Over(store));
        }
        self.each[usize::from(store)] = count;
        Ok(())
    }

    // Takes one off a store's count and answers what is left; none, and nothing changed, at 0.
    pub(crate) fn take(&mut self, store: u8) -> Option<u16>
        ensures draws { Draws (counter_readings self.old.each) store result (counter_readings self.new.each) }
        ensures refused { Unmoved result self.old self.new }
    {
        let store = usize::from(store);
        let left = self.each.get(store).copied()?.checked_sub(1)?;
        self.each[store] = left;
        Some(left)
    }
}
