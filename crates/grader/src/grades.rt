// The grades of a plan's binders, from its bytes.
ghost use Rattle.std.specs.Prelude.{◌≡◌, ◌+◌, ◌<◌, [], length};
ghost use Rattle.plan.specs.Table.{nodes_of, Spells, InOrder};
ghost use Rattle.plan.specs.Written.{binders_in};
ghost use Rattle.plan.specs.Plans.{params_of, legs_in};
ghost use Rattle.grading.specs.Grading.{turned};
ghost use Rattle.grading.specs.Least.{legs_binders};
ghost use Rattle.grader.specs.Walk.{LegsReady};
ghost use Rattle.grader.specs.Stores.{main_of, GradedAnswer};
ghost use Rattle.grader.specs.Grades.{GradesAnswer};

use crate::faults::GradeFault;
use crate::walk::grade_legs;
use plan::kinds::binders_of;
use plan::{Leg, Row};
use scales::scale::Scale;
use std::alloc::Global;
use std::ops::Range;
use typer::typed::read_typed;

// The fewest places that a work list may have.
pub const WORK_PLACES: usize = 4500;

// The number of the binder behind those of the nodes, if `next` is the first of theirs.
fn binder_behind(nodes: &[Row], next: usize) -> usize
    requires { next < 70000 }
    ensures { result ≡ binders_in next (nodes_of nodes.now) }
{
    let mut binder = next;
    for row in nodes {
        binder += binders_of(row.node) as usize;
    }
    binder
}

// How many binders the legs have: main's, which is the last leg, are the last ones.
fn binder_count(legs: &[Leg], nodes: &[Row]) -> usize
    requires spells { Spells nodes.now }
    requires order { InOrder 0 nodes.now legs.now }
    requires ready { LegsReady nodes.now legs.now }
    ensures { result ≡ legs_binders (turned [] (legs_in nodes.now legs.now)) }
{
    let Some(main) = legs.last() else {
        return 0;
    };
    let behind_params = main.binder.index as usize + main.params.len();
    binder_behind(&nodes[main.first as usize..], behind_params)
}

// Where a plan's grades stand among the answers: how many there are, and which are those of main's parameters, the stores.
#[derive(Drop)]
pub(crate) struct Graded {
    pub(crate) count: usize,
    pub(crate) stores: Range<usize>,
}

// The binders of main's parameters.
fn main_params(legs: &[Leg]) -> Range<usize>
    ensures first { result.start ≡ (main_of legs.now).binder.index }
    ensures behind { result.end ≡ (main_of legs.now).binder.index + length (params_of (main_of legs.now)) }
{
    let Some(main) = legs.last() else {
        return 0..0;
    };
    let first = main.binder.index as usize;
    first..first + main.params.len()
}

// Puts the least grade of each binder of the plan that the bytes hold among the answers.
pub(crate) fn grade_plan<S: Scale>(
    heap: Global,
    bytes: &[u8],
    work: &mut [S],
    answers: &mut [S],
) -> Result<Graded, GradeFault>
    ensures { GradedAnswer S.ops bytes.now work.old work.new answers.old answers.new result }
{
    if work.len() < WORK_PLACES {
        return Err(GradeFault::Short);
    }
    let typed = read_typed(heap, bytes)?;
    let legs = typed.plan.legs.as_slice();
    let nodes = typed.plan.nodes.as_slice();
    let count = binder_count(legs, nodes);
    if answers.len() < count {
        return Err(GradeFault::Short);
    }
    grade_legs(legs, nodes, work, answers);
    Ok(Graded {
        count,
        stores: main_params(legs),
    })
}

// The least grade of each binder of the plan that the bytes hold, in the first places of the answers; how many these are is answered.
pub fn grades<S: Scale>(
    heap: Global,
    bytes: &[u8],
    work: &mut [S],
    answers: &mut [S],
) -> Result<usize, GradeFault>
    ensures { GradesAnswer S.ops bytes.now work.old work.new answers.old answers.new result }
{
    let graded = grade_plan(heap, bytes, work, answers)?;
    Ok(graded.count)
}
