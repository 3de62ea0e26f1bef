// A bay over another bay, which keeps back the last readings of each store.
ghost use Rattle.std.specs.Prelude.{◌≡◌, ℕ};
ghost use Rattle.bay.specs.Readings.{Draws, DrawsUnder, Unmoved, kept_back, kept_readings};
ghost use Rattle.bay.specs.Filling.{Filling};
ghost use Rattle.bay.specs.Keeping.{take_words};
ghost use Rattle.std.proofs.Common.{rules};

use crate::counts::Counts;
use crate::{Bay, BayFault};

#[derive(Drop)]
pub struct KeptBack<B: Bay> {
    below: B,
    kept: Counts,
}

impl<B: Bay> Bay for KeptBack<B> {
    ghost readings = { λ b. kept_readings b.kept.each (B.Bay.readings b.below) };

    ghost few = { Prim.search rules };

    ghost eight = { Prim.search rules };

    ghost words = { λ b k. take_words _ (B.Bay.readings b.below k) (B.Bay.words b.below k) };

    fn stock(&self, store: u8) -> u16 {
        self.below.stock(store).saturating_sub(self.kept.get(store))
    }

    // Beyond what every draw does, it moves nothing that is kept: the bay below loses the reading answered and no other.
    fn draw(&mut self, store: u8) -> Option<u32>
        ensures draws { Draws (kept_readings self.old.kept.each (B.Bay.readings self.old.below)) store result (kept_readings self.new.kept.each (B.Bay.readings self.new.below)) }
        ensures refused { Unmoved result self.old self.new }
        ensures kept { self.new.kept ≡ self.old.kept }
        ensures under { DrawsUnder (B.Bay.readings self.old.below) store result (B.Bay.readings self.new.below) }
    {
        if self.stock(store) == 0 {
            return None;
        }
        self.below.draw(store)
    }
}

impl<B: Bay> KeptBack<B> {
    // Nothing is kept back: every store reads as below.
    pub fn new(below: B) -> KeptBack<B>
        ensures under { result.below ≡ below }
        ensures reads { (k : ℕ) → kept_readings result.kept.each (B.Bay.readings result.below) k ≡ B.Bay.readings below k }
    {
        KeptBack {
            below,
            kept: Counts::new(),
        }
    }

    // Sets how many readings one store keeps back; the bay below stays as it is.
    pub fn fill(&mut self, store: u8, count: u16) -> Result<(), BayFault>
        ensures under { self.new.below ≡ self.old.below }
        ensures filling { Filling (λ (b : KeptBack B). kept_readings b.kept.each (B.Bay.readings b.below)) store count 9999 (kept_back count (B.Bay.readings self.old.below store)) self.old result self.new }
    {
        self.kept.set(store, count)
    }
}
