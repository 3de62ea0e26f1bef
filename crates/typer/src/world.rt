// What the rules look up: the types of a plan, and what its legs take and give.
ghost use Rattle.std.specs.Prelude.{◌≤◌, length};

use plan::Plan;

#[derive(Clone, Copy, Drop)]
pub(crate) struct World<'a> {
    pub plan: &'a Plan,
    ghost few_types: { length plan.now.types.items ≤ 32 },
}
