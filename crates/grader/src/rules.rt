// The rules of grading, one node at a time: a node's context from those of its kids, which stand on top of the stack.
ghost use Rattle.std.specs.Prelude.{◌≡◌, ℕ, ◌+◌, ◌≤◌, ◌++◌, length, slice_index_or};
ghost use Rattle.plan.specs.Kinds.{binders};
ghost use Rattle.grader.specs.Stack.{room};
ghost use Rattle.grader.specs.Walk.{KidsOn, RowsOn, kid_width, call_row, HeadFit, Closed, ParamsIn, params_at};

use crate::contexts::Contexts;
use plan::{Leg, Node};
use scales::scale::Scale;

// How many levels are in scope at a node's k-th kid.
pub fn kid_width(node: Node, width: usize, k: usize) -> usize
    requires { width ≤ 16 }
    ensures { result ≡ kid_width width node k }
{
    match (node, k) {
        (_, 0) => width,
        (Node::Let(_) | Node::Take(_) | Node::Case(_), _) => width + 1,
        (Node::Split(_), _) => width + 2,
        _ => width,
    }
}

// The context of a call: the sum of the arguments', each scaled by its parameter's grade.
fn close_call<S: Scale>(grades: &[S], width: usize, contexts: &mut Contexts<S>)
    requires kids { RowsOn contexts.old.held (length grades.now) (λ k. width) }
    requires room { length contexts.old.held + width ≤ room contexts.old }
    ensures held { (k : RowsOn contexts.old.held (length grades.now) (λ k. width)) → contexts.new.held ≡ k.base ++ call_row S.ops (λ j. slice_index_or grades.now j S.ops.zero) 0 width k.rows }
    ensures room { room contexts.new ≡ room contexts.old }
{
    contexts.push_none(width);
    for grade in grades.iter().rev() {
        contexts.scale_below(*grade, width, width);
        contexts.add_top(width, width);
    }
}

// The context of a node in place of those of its kids, and the grades of the names that it binds among the answers.
pub fn close<S: Scale>(
    legs: &[Leg],
    node: Node,
    width: usize,
    next: usize,
    contexts: &mut Contexts<S>,
    answers: &mut [S],
)
    requires kids { KidsOn contexts.old.held node width }
    requires room { length contexts.old.held + width ≤ room contexts.old }
    requires width { width ≤ 16 }
    requires head { HeadFit legs.now width node }
    requires binders { next + binders node ≤ length answers.old }
    requires known { ParamsIn legs.now (length answers.old) }
    ensures closed { Closed S.ops (params_at S.ops legs.now answers.old) node width next contexts.old.held contexts.new.held answers.old answers.new }
    ensures room { room contexts.new ≡ room contexts.old }
{
    match node {
        Node::Unit | Node::Number(_) => contexts.push_none(width),
        Node::Name(level) => contexts.push_one(width, level.index as usize),
        Node::Left(_) | Node::Right(_) => {}
        Node::Pair | Node::Add | Node::Less => contexts.add_top(width, width),
        Node::Let(_) => {
            let grade = contexts.grade(width + 1, width);
            answers[next] = grade;
            contexts.scale_below(grade, width, width + 1);
            contexts.add_top(width, width + 1);
        }
        Node::Take(_) => {
            answers[next] = contexts.grade(width + 1, width);
            contexts.add_top(width, width + 1);
        }
        Node::Split(_) => {
            answers[next] = contexts.grade(width + 2, width);
            answers[next + 1] = contexts.grade(width + 2, width + 1);
            contexts.add_top(width, width + 2);
        }
        Node::Case(_) => {
            answers[next] = contexts.grade(width + 1 + width + 1, width);
            answers[next + 1] = contexts.grade(width + 1, width);
            contexts.join_top(width + 1);
            contexts.add_top(width, width + 1);
        }
        Node::Call(leg, count) => {
            let first = legs[leg.index as usize].binder.index as usize;
            close_call(&answers[first..first + count as usize], width, contexts);
        }
    }
}
