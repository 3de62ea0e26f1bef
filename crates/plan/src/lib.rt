// Plans: their types, nodes and legs, as a table of nodes in prefix order; the trees that it stands for and the bytes that spell it; and why bytes are refused.
#![tactic(auto)]

pub mod faults;
pub mod kinds;
pub mod limits;
pub mod params;

pub use params::Params;

// The number of a type: 0 is unit, 1 number, 2 either(unit, unit), the plan's own follow from 3.
#[derive(Clone, Copy, PartialEq, Eq, Default, Debug, Drop)]
pub struct TypeId {
    pub index: u8,
}

// The number of a leg, in the order of the bytes.
#[derive(Clone, Copy, PartialEq, Eq, Debug, Drop)]
pub struct LegId {
    pub index: u8,
}

// A name in scope, counted from outside in, parameters first.
#[derive(Clone, Copy, PartialEq, Eq, Debug, Drop)]
pub struct Level {
    pub index: u8,
}

// A place that binds a name, counted through the whole plan.
#[derive(Clone, Copy, PartialEq, Eq, Debug, Drop)]
pub struct Binder {
    pub index: u16,
}

// What a type is made of; the parts of a pair and the sides of an either have lower numbers.
#[derive(Clone, Copy, PartialEq, Eq, Debug, Drop)]
pub enum Type {
    Unit,
    Number,
    Pair(TypeId, TypeId),
    Either(TypeId, TypeId),
}

// A node without its kids. Let and take bind one name, split and case the one given and the next;
// a call has as many arguments as its leg has parameters.
#[derive(Clone, Copy, PartialEq, Eq, Debug, Drop)]
pub enum Node {
    Unit,
    Number(u32),
    Name(Level),
    Let(Binder),
    Take(Binder),
    Pair,
    Split(Binder),
    Left(TypeId),
    Right(TypeId),
    Case(Binder),
    Call(LegId, u8),
    Add,
    Less,
}

// A node in the table, and the place behind its last kid. Its first kid stands right behind it, each next kid at the end of the one before.
// A table and no tree of boxes: memory is taken once for all nodes, and none when a plan is flown. Whoever goes over a node's
// kids moves a place on: an iterator over them would save each a line and need a law of its own.
#[derive(Clone, Copy, PartialEq, Eq, Debug, Drop)]
pub struct Row {
    pub node: Node,
    pub end: u16,
}

// A leg: the types of its parameters and result, the place of its body, and the binder of its first parameter.
#[derive(Clone, Copy, PartialEq, Eq, Debug, Drop)]
pub struct Leg {
    pub params: Params,
    pub result: TypeId,
    pub first: u16,
    pub binder: Binder,
}

// A plan as it was read: its types from number 0 on, its legs, and the nodes of all legs one behind the other. The last leg is main.
#[derive(Drop)]
pub struct Plan {
    pub types: Vec<Type>,
    pub legs: Vec<Leg>,
    pub nodes: Vec<Row>,
}
