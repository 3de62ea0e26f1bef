// The walk over a plan's nodes: legs in order, kids in order, a node after its kids.
ghost use Rattle.std.specs.Prelude.{◌≡◌, ℕ, ◌+◌, ◌<◌, ◌≤◌, [], ◌++◌, length, vec_len, vec_capacity, OnOk};
ghost use Rattle.std.specs.List.{list_all};
ghost use Rattle.plan.specs.Trees.{flat};
ghost use Rattle.plan.specs.Table.{term_at, node_size, Spells};
ghost use Rattle.plan.specs.Plans.{params_of, leg_in, tree, Sound};
ghost use Rattle.typer.specs.Typing.{same_id, number_type, check, check_leg, check_plan};
ghost use Rattle.typer.specs.Walk.{scope_of, world_in, deals_in_numbers};
ghost use Rattle.typer.specs.Levels.{levels as all_levels, plan_levels};
ghost use Rattle.typer.specs.Depths.{FewKids};

use crate::rules::{NUMBER, Scope};
use crate::world::World;
use arrayvec::ArrayVec;
use plan::faults::TypeFault;
use plan::kinds::kids_of;
use plan::limits::MAX_PARAMS;
use plan::{Leg, Plan, TypeId};

// The scope of a leg's body: its parameters, the last one innermost. Pushed one by one, since there is room for each
// and what extends by a slice answers an error.
fn leg_scope(leg: &Leg) -> Scope
    ensures { result.items ≡ params_of leg.now }
{
    let mut scope: Scope = ArrayVec::new();
    for y in leg.params.as_slice() {
        scope.push(*y);
    }
    scope
}

impl World<'_> {
    // The type of the expression at a node; the levels in scope at each of its nodes are put behind `levels`.
    fn type_of(
        &self,
        at: usize,
        scope: &mut Scope,
        levels: &mut Vec<u8>,
    ) -> Result<TypeId, TypeFault>
        requires spells { Spells self.now.plan.now.nodes.items }
        requires within { at < length self.now.plan.now.nodes.items }
        requires few { FewKids (flat (term_at self.now.plan.now.nodes.items at)) }
        requires room { vec_len levels.old + node_size (term_at self.now.plan.now.nodes.items at) ≤ vec_capacity levels.old }
        ensures answer { result ≡ check (world_in self.now.plan.now) (scope_of scope.old.items) at (term_at self.now.plan.now.nodes.items at) }
        ensures scope { OnOk result (scope.new.items ≡ scope.old.items) }
        ensures levels { OnOk result (levels.new.items ≡ levels.old.items ++ all_levels (length scope.old.items) (term_at self.now.plan.now.nodes.items at)) }
        ensures cap { vec_capacity levels.new ≡ vec_capacity levels.old }
    {
        let depth = scope.len();
        levels.push_reserved(depth as u8);
        let node = self.plan.nodes[at].node;
        let mut kids: ArrayVec<TypeId, MAX_PARAMS> = ArrayVec::new();
        let mut place = at + 1;
        for _ in 0..kids_of(node) {
            self.open_kid(at, node, scope, kids.as_slice())?;
            let y = self.type_of(place, scope, levels)?;
            scope.truncate(depth);
            kids.push(y);
            place = usize::from(self.plan.nodes[place].end);
        }
        self.node_type(at, node, scope.as_slice(), kids.as_slice())
    }

    // Types a leg's body, with its parameters in scope, which has to have the leg's result type.
    fn type_leg(&self, leg: &Leg, levels: &mut Vec<u8>) -> Result<(), TypeFault>
        requires spells { Spells self.now.plan.now.nodes.items }
        requires within { leg.now.first < length self.now.plan.now.nodes.items }
        requires few { FewKids (flat (term_at self.now.plan.now.nodes.items leg.now.first)) }
        requires room { vec_len levels.old + node_size (term_at self.now.plan.now.nodes.items leg.now.first) ≤ vec_capacity levels.old }
        ensures answer { result ≡ check_leg (world_in self.now.plan.now) leg.now.first (leg_in self.now.plan.now.nodes.items leg.now) }
        ensures levels { OnOk result (levels.new.items ≡ levels.old.items ++ all_levels (length (params_of leg.now)) (term_at self.now.plan.now.nodes.items leg.now.first)) }
        ensures cap { vec_capacity levels.new ≡ vec_capacity levels.old }
    {
        let first = usize::from(leg.first);
        let mut scope = leg_scope(leg);
        let y = self.type_of(first, &mut scope, levels)?;
        if y == leg.result {
            Ok(())
        } else {
            Err(TypeFault::Type(first))
        }
    }
}

// Whether all the types are numbers.
fn all_numbers(types: &[TypeId]) -> bool
    ensures { result ≡ list_all (λ y. same_id y number_type) types.now }
{
    types.iter().all(|y| *y == NUMBER)
}

// Whether a leg takes and gives numbers only.
fn numbers_only(leg: &Leg) -> bool
    ensures { result ≡ deals_in_numbers (params_of leg.now) leg.now.result }
{
    all_numbers(leg.params.as_slice()) && leg.result == NUMBER
}

// Types the legs in order; main has to take and give numbers, which is looked at before its walk.
pub(crate) fn type_legs(plan: &Plan, levels: &mut Vec<u8>) -> Result<(), TypeFault>
    requires sound { Sound plan.now }
    requires empty { levels.old.items ≡ [] }
    requires room { length plan.now.nodes.items ≤ vec_capacity levels.old }
    ensures answer { result ≡ check_plan (tree plan.now) }
    ensures levels { OnOk result (levels.new.items ≡ plan_levels (tree plan.now)) }
{
    let world = World { plan };
    let Some((main, lower)) = plan.legs.split_last() else {
        return Err(TypeFault::Type(0));
    };
    for leg in lower {
        world.type_leg(leg, levels)?;
    }
    if !numbers_only(main) {
        return Err(TypeFault::Type(usize::from(main.first)));
    }
    world.type_leg(main, levels)
}
