ghost use Rattle.std.specs.Prelude.{◌≡◌, ℕ, ◌+◌, ◌<◌, ◌≤◌, List, [], length, vec_len, vec_capacity};
ghost use Rattle.flight.specs.Tables.{tables};
ghost use Rattle.flight.specs.Sound.{Ready};
ghost use Rattle.flight.specs.Spelled.{Main, Begun, blank};

use super::{Code, Control, Ending, Machine, Part, Spot, What};
use crate::limits::{MAX_DEPTH, MAX_ENTRIES, MAX_VALUES};
use plan::Leg;
use std::alloc::{AllocError, Global};

// The three values that every flight has: unit, and unit in the left and in the right.
fn preset(values: &mut Vec<Part>)
    requires { 2051 ≤ vec_capacity values.old }
    ensures items { values.new.items ≡ blank.values }
    ensures cap { vec_capacity values.new ≡ vec_capacity values.old }
{
    values.clear();
    values.push_reserved(Part::Nothing);
    values.push_reserved(Part::InLeft(0));
    values.push_reserved(Part::InRight(0));
}

impl Machine {
    // A machine with all its memory, which has no flight yet.
    pub(crate) fn new(heap: Global) -> Result<Machine, AllocError> {
        let frames = Vec::with_capacity(heap, usize::from(MAX_DEPTH))?;
        let bindings = Vec::with_capacity(heap, MAX_ENTRIES)?;
        let mut values = Vec::with_capacity(heap, MAX_VALUES)?;
        let log = Vec::with_capacity(heap, MAX_ENTRIES)?;
        preset(&mut values);
        Ok(Machine {
            frames,
            bindings,
            values,
            log,
            begun: 0,
            control: Control::Over(Ending::Long),
        })
    }

    fn reset(&mut self)
        ensures { tables self.new ≡ blank }
    {
        self.frames.clear();
        self.bindings.clear();
        preset(&mut self.values);
        self.log.clear();
        self.begun = 0;
    }

    // Binds the stores of main, and stands before main's body.
    pub(crate) fn clear(&mut self, code: Code, main: &Leg)
        requires { Main code.nodes.now code.legs.now main.now }
        ensures ready { Ready code.entry.nodes.now code.entry.legs.now (tables self.new) self.new.control }
        ensures begun { Begun code.entry.nodes.now code.entry.legs.now main.now (tables self.new) self.new.control }
    {
        self.reset();
        let count = main.params.len() as u16;
        for i in 0..count {
            let _ = self.open(main.binder.index + i, What::Store, i);
        }
        self.control = Control::Eval(Spot {
            node: main.first,
            scope: count,
            depth: 1,
        });
    }
}
