// The typer: which read plans have types.
#![tactic(auto)]

use plan::Plan;

mod rules;
pub mod typed;
mod walk;
mod world;

// A plan that has types, with the number of levels in scope at each of its nodes.
// The levels stand beside the rows: the reader makes the rows, and there are no levels before a plan has types.
#[derive(Drop)]
pub struct TypedPlan {
    pub plan: Plan,
    pub levels: Vec<u8>,
}
