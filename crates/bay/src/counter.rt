// A bay of counters: a store reads the count left after each draw.
ghost use Rattle.std.specs.Prelude.{◌≡◌, ℕ, []};
ghost use Rattle.bay.specs.Readings.{countdown, counter_readings};
ghost use Rattle.bay.specs.Filling.{Filling};
ghost use Rattle.bay.specs.Countdowns.{counter_few, counter_eight, counter_words};

use crate::counts::Counts;
use crate::{Bay, BayFault};

#[derive(Drop)]
pub struct CounterBay {
    counts: Counts,
}

impl Bay for CounterBay {
    ghost readings = { λ b. counter_readings b.counts.each };

    ghost few = { λ b k. counter_few b.counts.each k (b.counts.few.1 k) };

    ghost eight = { λ b k h. counter_eight b.counts.each k b.counts.few.0 h };

    ghost words = { λ b k. counter_words b.counts.each k (b.counts.few.1 k) };

    fn stock(&self, store: u8) -> u16 {
        self.counts.get(store)
    }

    fn draw(&mut self, store: u8) -> Option<u32> {
        Some(u32::from(self.counts.take(store)?))
    }
}

impl CounterBay {
    // Every store is empty.
    pub fn new() -> CounterBay
        ensures { (k : ℕ) → counter_readings result.counts.each k ≡ [] }
    {
        CounterBay {
            counts: Counts::new(),
        }
    }

    // Sets one store's counter.
    pub fn fill(&mut self, store: u8, count: u16) -> Result<(), BayFault>
        ensures { Filling (λ (b : CounterBay). counter_readings b.counts.each) store count 9999 (countdown count) self.old result self.new }
    {
        self.counts.set(store, count)
    }
}
