// The reader: plan bytes, front to back, into the tables of a plan, or the first fault.
#![tactic(auto)]

ghost use Rattle.plan.specs.Trees.{Plan as Tree};
ghost use Rattle.reader.specs.Laws.{ReadExactly};
ghost use Rattle.reader.specs.Replies.{Empty, PlanRead, ReadAnswer};

use crate::draft::Draft;
use crate::input::Input;
use plan::Plan;
use plan::faults::{PlanFault, ReadFault};
use plan::limits::MAX_BYTES;
use std::alloc::Global;

mod draft;
mod input;
mod table;

// Reads the bytes to their end into empty tables.
fn read_into(draft: &mut Draft, bytes: &[u8]) -> Result<(), ReadFault>
    requires { Empty draft.old }
    ensures { PlanRead bytes.now draft.new result }
{
    if bytes.len() > MAX_BYTES {
        return Err(ReadFault::Limit(MAX_BYTES));
    }
    let mut input = Input::new(bytes);
    draft.read_front(&mut input)?;
    draft.read_legs(&mut input)?;
    if !input.is_empty() {
        return Err(ReadFault::Tail(input.place()));
    }
    Ok(())
}

// The plan that the bytes hold, or the first fault, front to back.
pub fn read(heap: Global, bytes: &[u8]) -> Result<Plan, PlanFault>
    ensures answer { ReadAnswer bytes.now result }
    ensures exactly { (p : Tree) → ReadExactly bytes.now p }
{
    let mut draft = Draft::new(heap)?;
    read_into(&mut draft, bytes)?;
    Ok(draft.into_plan())
}
