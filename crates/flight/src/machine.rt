ghost use Rattle.std.specs.Prelude.{◌≤◌, vec_items, vec_capacity};
ghost use Rattle.flight.specs.Links.{Linked};

mod code;
mod fly;
mod log;
mod start;
mod steps;

pub(crate) use code::Code;

// A value, by the places of its parts in the table of values.
#[derive(Clone, Copy)]
pub enum Part {
    Nothing,
    Num(u32),
    Both(u16, u16),
    InLeft(u16),
    InRight(u16),
}

// The places of three values that every flight has: unit, and the two of a comparison.
const UNIT: u16 = 0;

const TRUE: u16 = 1;

const FALSE: u16 = 2;

// What a lookup does: work out a node in a scope, give a kept value, or draw.
#[derive(Clone, Copy)]
pub enum What {
    Thunk(u16, u16),
    Kept(u16),
    Store,
}

// A scope is a place in the table of bindings: 0 has no names, i + 1 has the binding i on top of the scope `parent`.
// A number and no `Option`, which would make the rows of tables of fixed memory larger.
#[derive(Clone, Copy)]
pub struct Binding {
    pub binder: u16,
    pub level: u16,
    pub parent: u16,
    pub what: What,
}

// Where an evaluation stands.
#[derive(Clone, Copy)]
pub struct Spot {
    pub node: u16,
    pub scope: u16,
    pub depth: u16,
}

// An evaluation that waits for a kid of its node: for the first, or for the second once the first has given its value.
#[derive(Clone, Copy)]
pub struct Frame {
    pub spot: Spot,
    pub first: Option<u16>,
}

// What an entry of the log tells of a binding.
#[derive(Clone, Copy, PartialEq, Eq, Debug)]
pub enum Event {
    Made,
    Lookup,
}

// An entry of the log: a binding was made or looked up; its binder, and the binding's own number.
#[derive(Clone, Copy, PartialEq, Eq, Debug)]
pub struct Entry {
    pub event: Event,
    pub binder: u16,
    pub binding: u16,
}

#[derive(Clone, Copy, PartialEq, Eq, Debug)]
pub enum Ending {
    Long,
    Deep,
    Full,
    Empty,
}

#[derive(Clone, Copy)]
pub enum Control {
    Eval(Spot),
    Return(u16),
    Draw(u16, u16),
    Over(Ending),
}

#[derive(Clone, Copy, PartialEq, Eq, Debug)]
pub enum Outcome {
    InAir,
    Ended(Ending),
    Done(u32),
}

#[derive(Clone, Copy, PartialEq, Eq, Debug)]
pub struct Flown {
    pub outcome: Outcome,
    pub begun: u32,
}

// The tables take all their memory at load and grow no further, so what they hold is linked by places in them.
#[derive(Drop)]
pub struct Machine {
    frames: Vec<Frame>,
    bindings: Vec<Binding>,
    values: Vec<Part>,
    log: Vec<Entry>,
    begun: u32,
    control: Control,
    ghost frames_room: { 128 ≤ vec_capacity frames },
    ghost bindings_room: { 4096 ≤ vec_capacity bindings },
    ghost values_room: { 2051 ≤ vec_capacity values },
    ghost log_room: { 4096 ≤ vec_capacity log },
    // What holds of the tables by a plan is in `Ready`, since the machine holds no plan.
    ghost linked: { ∥ Linked (vec_items bindings) (vec_items values) (vec_items log) ∥₁ },
}
