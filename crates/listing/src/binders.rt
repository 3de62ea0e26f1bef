// The kinds of a plan's binders, by their numbers.
ghost use Rattle.std.specs.Prelude.{◌≡◌, ◌+◌, ◌<◌, ◌≤◌, ◌++◌, length, IfOk, OnOk, slice_index_or, vec_len};
ghost use Rattle.plan.specs.Table.{nodes_of, term_at};
ghost use Rattle.plan.specs.Trees.{flat};
ghost use Rattle.plan.specs.Plans.{params_of, tree, Sound};
ghost use Rattle.listing.specs.Binders.{bound_by, bound_in, params, binder_kinds};

use crate::BinderKind;
use plan::{Leg, Node, Plan, Row};
use std::alloc::{AllocError, Global};

// What a node binds, in the order of the binders' numbers.
fn bound_by(node: Node) -> &'static [BinderKind]
    ensures { result.now ≡ bound_by node }
{
    match node {
        Node::Let(_) => &[BinderKind::Let],
        Node::Take(_) => &[BinderKind::Take],
        Node::Split(_) => &[BinderKind::First, BinderKind::Second],
        Node::Case(_) => &[BinderKind::Left, BinderKind::Right],
        _ => &[],
    }
}

// Where the body of the k-th leg ends: where the next leg's begins, or with the table.
fn body_end(plan: &Plan, k: usize) -> usize
    requires { k < vec_len plan.now.legs }
    ensures next { (d : Leg) → k + 1 < vec_len plan.now.legs → result ≡ (slice_index_or plan.now.legs.items (k + 1) d).first }
    ensures last { vec_len plan.now.legs ≤ k + 1 → result ≡ vec_len plan.now.nodes }
{
    plan.legs
        .get(k + 1)
        .map_or(plan.nodes.len(), |next| next.first as usize)
}

// The nodes of the k-th leg's body.
fn body(plan: &Plan, k: usize) -> &[Row]
    requires { k < vec_len plan.now.legs }
    ensures { (d : Leg) → Sound plan.now → nodes_of result.now ≡ flat (term_at plan.now.nodes.items (slice_index_or plan.now.legs.items k d).first) }
{
    let start = plan.legs[k].first as usize;
    plan.nodes.get(start..body_end(plan, k)).unwrap_or(&[])
}

// Puts a leg's parameters, and then what the nodes of its body bind, behind the others.
fn push_leg(leg: &Leg, body: &[Row], kinds: &mut Vec<BinderKind>) -> Result<(), AllocError>
    ensures { OnOk result (kinds.new.items ≡ kinds.old.items ++ (params (length (params_of leg.now)) ++ bound_in (nodes_of body.now))) }
{
    for _ in leg.params.as_slice() {
        kinds.push(BinderKind::Param)?;
    }
    for row in body {
        kinds.extend_from_slice(bound_by(row.node))?;
    }
    Ok(())
}

// The kinds of a plan's binders, by the binders' numbers.
pub fn binder_kinds(heap: Global, plan: &Plan) -> Result<Vec<BinderKind>, AllocError>
    ensures { IfOk result (λ kinds. Sound plan.now → kinds.items ≡ binder_kinds (tree plan.now)) }
{
    let mut kinds = Vec::new(heap);
    for (k, leg) in plan.legs.iter().enumerate() {
        push_leg(leg, body(plan, k), &mut kinds)?;
    }
    Ok(kinds)
}
