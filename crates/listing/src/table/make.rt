// The listing of a plan, from its bytes.
ghost use Rattle.std.specs.Prelude.{◌≡◌, IfOk, Ok};
ghost use Rattle.plan.specs.Trees.{Plan};
ghost use Rattle.typer.specs.Accepted.{typed};
ghost use Rattle.listing.specs.Binders.{binder_kinds};
ghost use Rattle.listing.specs.Listings.{ColumnAnswer, ListingAnswer};

use super::Listing;
use crate::BinderKind;
use crate::binders::binder_kinds;
use grader::faults::GradeFault;
use grader::grades::{WORK_PLACES, grades};
use scales::scale::Scale;
use scales::set::Set;
use scales::span::Span;
use scales::tally::Tally;
use std::alloc::{AllocError, Global};
use typer::typed::read_typed;

// The least grades of a plan with so many binders, under one scale.
fn column<S: Scale>(heap: Global, bytes: &[u8], count: usize) -> Result<Vec<S>, GradeFault>
    ensures { ColumnAnswer S.ops bytes.now count result }
{
    let mut work = vec![in heap; S::zero(); WORK_PLACES]?;
    let mut answers = vec![in heap; S::zero(); count]?;
    grades(heap, bytes, work.as_mut_slice(), answers.as_mut_slice())?;
    Ok(answers)
}

// The listing of the plan of the bytes, which has these kinds of binders.
fn graded(heap: Global, bytes: &[u8], kinds: Vec<BinderKind>) -> Result<Listing, GradeFault>
    ensures { (p : Plan) → typed bytes.now ≡ Ok p → kinds.items ≡ binder_kinds p → ListingAnswer bytes.now result }
{
    let tallies = column::<Tally>(heap, bytes, kinds.len())?;
    let spans = column::<Span>(heap, bytes, kinds.len())?;
    let sets = column::<Set>(heap, bytes, kinds.len())?;
    Ok(Listing {
        kinds,
        tallies,
        spans,
        sets,
    })
}

// The listing of the plan of the bytes, or why they give none; apart from these, that there was no room for the kinds, which ends a program.
pub(crate) fn listed(heap: Global, bytes: &[u8]) -> Result<Result<Listing, GradeFault>, AllocError>
    ensures { IfOk result (λ answer. ListingAnswer bytes.now answer) }
{
    let typed = match read_typed(heap, bytes) {
        Ok(typed) => typed,
        Err(fault) => return Ok(Err(GradeFault::from(fault))),
    };
    let kinds = binder_kinds(heap, &typed.plan)?;
    Ok(graded(heap, bytes, kinds))
}

// The plan's binders with their kinds and their least grades, or why the bytes give no plan.
pub fn list_plan(heap: Global, bytes: &[u8]) -> Result<Listing, GradeFault>
    ensures { ListingAnswer bytes.now result }
{
    listed(heap, bytes)?
}
