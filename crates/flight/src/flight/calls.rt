// The calls of a flight.
ghost use Rattle.std.specs.Prelude.{◌≡◌, ℕ, ◌+◌, ◌≤◌, List, length, vec_len};
ghost use Rattle.plan.specs.Trees.{Plan as Tree};
ghost use Rattle.plan.specs.Plans.{tree};
ghost use Rattle.std.specs.List.{slice_get};
ghost use Rattle.flight.specs.Spelled.{Begun};
ghost use Rattle.flight.specs.Tables.{tables};
ghost use Rattle.flight.specs.Held.{CanBegin, CanGoOn, Flyable, rows_of, legs_of, main_in};
ghost use Rattle.flight.specs.Flights.{Flies, LoadAnswer, Written, plan_of, out_of, outcome_of, is_over, lookups_of};

use super::Flight;
use crate::machine::{Code, Entry, Flown, Machine};
use bay::{Bay, STORES};
use plan::Leg;
use plan::faults::PlanFault;
use std::alloc::Global;
use typer::TypedPlan;
use typer::typed::read_typed;

fn code_of(plan: &TypedPlan) -> Code<'_>
    ensures nodes { result.nodes.now ≡ rows_of plan.now }
    ensures legs { result.legs.now ≡ legs_of plan.now }
{
    Code {
        nodes: plan.plan.nodes.as_slice(),
        legs: plan.plan.legs.as_slice(),
    }
}

// The last leg.
fn main_of(plan: &TypedPlan) -> &Leg
    requires { 1 ≤ vec_len plan.now.plan.legs }
    ensures { result.now ≡ main_in plan.now }
{
    let legs = plan.plan.legs.as_slice();
    &legs[legs.len() - 1]
}

// Lets the machine stand before the plan's first evaluation.
fn stand(machine: &mut Machine, plan: &TypedPlan)
    requires legs { 1 ≤ vec_len plan.now.plan.legs }
    requires main { CanBegin plan.now }
    ensures ready { CanGoOn plan.now machine.new }
    ensures begun { Begun (rows_of plan.now) (legs_of plan.now) (main_in plan.now) (tables machine.new) machine.new.control }
{
    machine.clear(code_of(plan), main_of(plan));
}

impl Flight {
    // The plan of the bytes with all the memory that flying it takes, before its first evaluation; or why there is none.
    pub fn load(heap: Global, bytes: &[u8]) -> Result<Flight, PlanFault>
        ensures { LoadAnswer bytes.now result }
    {
        let plan = read_typed(heap, bytes)?;
        let machine = Machine::new(heap)?;
        Ok(Flight::over(plan, machine))
    }

    fn over(plan: TypedPlan, mut machine: Machine) -> Flight
        requires { Flyable plan }
        ensures plan { result.plan ≡ plan }
        ensures begun { (y : ℕ → List ℕ) → Flies result (tree plan.plan) y 0 y }
    {
        stand(&mut machine, &plan);
        Flight { plan, machine }
    }

    // Begins the plan again: whatever the bay reads then, the flight stands before its first evaluation.
    pub fn begin(&mut self)
        ensures plan { self.new.plan ≡ self.old.plan }
        ensures begun { Flyable self.old.plan → (y : ℕ → List ℕ) → Flies self.new (plan_of self.old) y 0 y }
    {
        stand(&mut self.machine, &self.plan);
    }

    // Flies on for at most n evaluations more: what was flown for N is then flown for N + n. Tells the outcome and the evaluations that this call began.
    pub fn advance<B: Bay>(&mut self, bay: &mut B, n: u32) -> Flown
        ensures plan { self.new.plan ≡ self.old.plan }
        ensures flies { (p : Tree) (y : ℕ → List ℕ) (N : ℕ) → Flies self.old p y N (B.readings bay.old) → Flies self.new p y (N + n) (B.readings bay.new) }
        ensures told { result.outcome ≡ outcome_of (out_of self.new (B.readings bay.new)) }
        ensures begun { result.begun + self.old.machine.begun ≡ self.new.machine.begun }
        ensures most { result.begun ≤ n }
    {
        self.machine.fly(code_of(&self.plan), bay, n)
    }

    // Whether it has ended.
    pub fn has_ended(&self) -> bool
        ensures { (y : ℕ → List ℕ) → result ≡ is_over (out_of self.now y) }
    {
        self.machine.is_over()
    }

    // How many entries the log has.
    pub fn log_len(&self) -> usize
        ensures { result ≡ length self.now.machine.log.items }
    {
        self.machine.log_len()
    }

    // The entry at a place of the log; none past its end.
    pub fn entry(&self, at: usize) -> Option<Entry>
        ensures { result ≡ slice_get self.now.machine.log.items at }
    {
        self.machine.entry(at)
    }

    // How often a store was looked up; never, where main has no such parameter.
    pub fn lookups(&self, store: u8) -> u16
        ensures { result ≡ lookups_of self.now store }
    {
        if usize::from(store) < main_of(&self.plan).params.len() {
            self.machine.lookups(u16::from(store))
        } else {
            0
        }
    }

    // Writes the lookups of the eight stores into the first eight places, as far as there are so many; the others stay.
    pub fn count_lookups(&self, counts: &mut [u16])
        ensures { Written (lookups_of self.now) counts.old counts.new 8 }
    {
        // A test and no `take(8)`, behind which a proof knows nothing of the places.
        for (store, count) in counts.iter_mut().enumerate() {
            if store == usize::from(STORES) {
                break;
            }
            *count = self.lookups(store as u8);
        }
    }
}
