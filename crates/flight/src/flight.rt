// A plan with types and the machine that flies it. The bay is lent to each call and is no part of it.
ghost use Rattle.std.specs.Prelude.{◌≤◌, vec_len};
ghost use Rattle.flight.specs.Held.{CanBegin, CanGoOn};

use crate::machine::Machine;
use typer::TypedPlan;

pub mod calls;

#[derive(Drop)]
pub struct Flight {
    plan: TypedPlan,
    machine: Machine,
    ghost legs: { 1 ≤ vec_len plan.plan.legs },
    ghost main: { ∥ CanBegin plan ∥₁ },
    ghost ready: { ∥ CanGoOn plan machine ∥₁ },
}
