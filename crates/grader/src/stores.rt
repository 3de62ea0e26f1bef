// What is asked of the stores, which are main's parameters.
ghost use Rattle.std.specs.Prelude.{◌≡◌, map};
ghost use Rattle.plan.specs.Limits.{max_params};
ghost use Rattle.grading.specs.Least.{filled};
ghost use Rattle.grader.specs.Stores.{StoresAnswer, CeilingsAnswer};

use crate::faults::GradeFault;
use crate::grades::grade_plan;
use plan::limits::MAX_PARAMS;
use scales::scale::{Ceiling, Scale};
use std::alloc::Global;
use std::ops::Range;

// The ceilings of the first eight grades, and 0 where there are fewer.
fn eight_ceilings<S: Scale>(grades: &[S]) -> [Ceiling; MAX_PARAMS]
    ensures { result ≡ filled max_params (map S.ops.ceiling grades.now) }
{
    let mut ceilings = [Ceiling::Count(0); MAX_PARAMS];
    for (i, ceiling) in ceilings.iter_mut().enumerate() {
        if let Some(grade) = grades.get(i) {
            *ceiling = grade.ceiling();
        }
    }
    ceilings
}

// Writes the least grades as `grades` does, and answers in which places those of main's parameters stand.
pub fn store_places<S: Scale>(
    heap: Global,
    bytes: &[u8],
    work: &mut [S],
    answers: &mut [S],
) -> Result<Range<usize>, GradeFault>
    ensures { StoresAnswer S.ops bytes.now work.old work.new answers.old answers.new result }
{
    let graded = grade_plan(heap, bytes, work, answers)?;
    Ok(graded.stores)
}

// The most that a plan may ask of each of the eight stores: the ceilings of the least grades of main's parameters, and 0 for a store beyond them.
pub fn ceilings<S: Scale>(
    heap: Global,
    bytes: &[u8],
    work: &mut [S],
    answers: &mut [S],
) -> Result<[Ceiling; MAX_PARAMS], GradeFault>
    ensures { CeilingsAnswer S.ops bytes.now work.old work.new answers.old answers.new result }
{
    let places = store_places(heap, bytes, work, answers)?;
    Ok(eight_ceilings(&answers[places]))
}
