// The tables of a plan that is being read.
ghost use Rattle.std.specs.Prelude.{◌≤◌, vec_len, vec_capacity};

use plan::limits::{MAX_LEGS, MAX_NODES, MAX_TYPES};
use plan::{Leg, Plan, Row, Type};
use std::alloc::{AllocError, Global};

mod legs;
mod nodes;
mod types;

// What is read so far, and the next binder's number. There is room for the largest plan, so reading takes no memory.
#[derive(Drop)]
pub(crate) struct Draft {
    types: Vec<Type>,
    legs: Vec<Leg>,
    nodes: Vec<Row>,
    next: u16,
    ghost types_room: { 32 ≤ vec_capacity types },
    ghost legs_room: { 16 ≤ vec_capacity legs },
    ghost nodes_room: { 256 ≤ vec_capacity nodes },
    ghost few: { vec_len nodes ≤ 256 },
}

impl Draft {
    ghost use Rattle.std.specs.Prelude.{◌≡◌, IfOk};
    ghost use Rattle.reader.specs.Replies.{Empty};

    pub(crate) fn new(heap: Global) -> Result<Draft, AllocError>
        ensures { IfOk result Empty }
    {
        Ok(Draft {
            types: Vec::with_capacity(heap, MAX_TYPES)?,
            legs: Vec::with_capacity(heap, usize::from(MAX_LEGS))?,
            nodes: Vec::with_capacity(heap, MAX_NODES)?,
            next: 0,
        })
    }

    pub(crate) fn into_plan(self) -> Plan
        ensures { result ≡ record { types = self.types; legs = self.legs; nodes = self.nodes } }
    {
        let Draft {
            types,
            legs,
            nodes,
            next: _,
        } = self;
        Plan { types, legs, nodes }
    }
}
