// From bytes to a plan with types.
ghost use Rattle.plan.specs.Trees.{Plan as Tree};
ghost use Rattle.typer.specs.Accepted.{TypedAnswer, AcceptedExactly};

use crate::TypedPlan;
use crate::walk::type_legs;
use plan::faults::PlanFault;
use reader::read;
use std::alloc::Global;

// The plan that the bytes hold, with its levels, or the reader's first fault, or else the typer's.
pub fn read_typed(heap: Global, bytes: &[u8]) -> Result<TypedPlan, PlanFault>
    ensures answer { TypedAnswer bytes.now result }
    ensures exactly { (p : Tree) → AcceptedExactly bytes.now p }
{
    let plan = read(heap, bytes)?;
    let mut levels: Vec<u8> = Vec::with_capacity(heap, plan.nodes.len())?;
    type_legs(&plan, &mut levels)?;
    Ok(TypedPlan { plan, levels })
}
