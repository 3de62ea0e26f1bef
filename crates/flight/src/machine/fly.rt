ghost use Rattle.std.specs.Prelude.{◌≡◌, ℕ, ◌+◌, ◌-◌, ◌<◌, ◌≤◌, List, length};
ghost use Rattle.flight.specs.Tables.{tables};
ghost use Rattle.flight.specs.Sound.{Ready, Steps};
ghost use Rattle.flight.specs.Fly.{at_end, goes, told, Flies, Moves};

use super::{Code, Control, Ending, Flown, Machine, Outcome, Part, Spot};
use crate::limits::{MAX_BEGUN, MAX_DEPTH};
use bay::Bay;

impl Machine {
    // Begins an evaluation, unless a limit stops it.
    fn begin(&mut self, code: Code, spot: Spot) -> Control
        requires { Ready code.nodes.now code.legs.now (tables self.old) (Control.Eval spot) }
        ensures { (y : ℕ → List ℕ) → Steps code.entry.nodes.now code.entry.legs.now y (tables self.old) (Control.Eval spot) y (tables self.new) result }
    {
        if self.begun >= MAX_BEGUN {
            return Control::Over(Ending::Long);
        }
        if spot.depth > MAX_DEPTH {
            return Control::Over(Ending::Deep);
        }
        self.begun += 1;
        self.work(code, spot)
    }

    // Gives a value to the top frame.
    fn give(&mut self, code: Code, v: u16) -> Control
        requires ready { Ready code.nodes.now code.legs.now (tables self.old) (Control.Return v) }
        requires some { 0 < length (tables self.old).frames }
        ensures { (y : ℕ → List ℕ) → Steps code.entry.nodes.now code.entry.legs.now y (tables self.old) (Control.Return v) y (tables self.new) result }
    {
        match self.frames.pop() {
            None => Control::Return(v),
            Some(frame) => self.resume(code, frame, v),
        }
    }

    // Whether there is a step to make.
    fn going(&self, control: Control, from: u32, n: u32) -> bool
        requires { from ≤ (tables self.now).begun }
        ensures { result ≡ goes (tables self.now) control from n }
    {
        match control {
            Control::Eval(_) => self.begun - from < n,
            Control::Return(_) => !self.frames.is_empty(),
            Control::Draw(_, _) => true,
            Control::Over(_) => false,
        }
    }

    // One step, of which at most one evaluation is begun.
    fn step<B: Bay>(&mut self, code: Code, bay: &mut B, control: Control) -> Control
        requires ready { Ready code.nodes.now code.legs.now (tables self.old) control }
        requires moves { Moves (tables self.old) control }
        ensures { Steps code.entry.nodes.now code.entry.legs.now (B.readings bay.old) (tables self.old) control (B.readings bay.new) (tables self.new) result }
    {
        match control {
            Control::Eval(spot) => self.begin(code, spot),
            Control::Return(v) => self.give(code, v),
            Control::Draw(binder, store) => match bay.draw(store as u8) {
                None => Control::Over(Ending::Empty),
                Some(x) => {
                    self.note_lookup(binder, store);
                    Control::Return(self.value(Part::Num(x)))
                }
            },
            Control::Over(_) => control,
        }
    }

    fn outcome(&self, control: Control) -> Outcome
        requires { (v : ℕ) → control ≡ Control.Return v → v < length (tables self.now).values }
        ensures { result ≡ told (tables self.now) control }
    {
        match control {
            Control::Eval(_) | Control::Draw(_, _) => Outcome::InAir,
            Control::Return(v) => Outcome::Done(self.number(v)),
            Control::Over(e) => Outcome::Ended(e),
        }
    }

    // Whether there is nothing left to do, of a machine at rest.
    pub(crate) fn is_over(&self) -> bool
        ensures { result ≡ at_end self.now.control }
    {
        matches!(self.control, Control::Return(_) | Control::Over(_))
    }

    // Flies on, for at most n evaluations more.
    pub(crate) fn fly<B: Bay>(&mut self, code: Code, bay: &mut B, n: u32) -> Flown
        requires { Ready code.nodes.now code.legs.now (tables self.old) self.old.control }
        ensures ready { Ready code.entry.nodes.now code.entry.legs.now (tables self.new) self.new.control }
        ensures flies { Flies code.entry.nodes.now code.entry.legs.now n (B.readings bay.old) (tables self.old) self.old.control (B.readings bay.new) (tables self.new) self.new.control }
        ensures told { result.outcome ≡ told (tables self.new) self.new.control }
        ensures begun { result.begun + (tables self.old).begun ≡ (tables self.new).begun }
        ensures most { result.begun ≤ n }
    {
        let from = self.begun;
        let mut control = self.control;
        while self.going(control, from, n) {
            control = self.step(code, bay, control);
        }
        self.control = control;
        Flown {
            outcome: self.outcome(control),
            begun: self.begun - from,
        }
    }
}
