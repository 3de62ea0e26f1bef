// Why a plan is not graded.
ghost use Rattle.std.specs.Prelude.{◌≡◌};
ghost use Rattle.plan.specs.declared.faults.PlanFault.TheVariants.{Memory};
ghost use Rattle.grader.specs.declared.faults.GradeFault.TheVariants.{Plan as OfPlan};
ghost use Rattle.grader.specs.Faults.{refused};

use plan::faults::PlanFault;
use refusal::{Layer, Refusal};
use std::alloc::AllocError;

// A list that is lent has too few places, or the bytes give no plan.
#[derive(Clone, Copy, PartialEq, Eq, Debug, Drop)]
pub enum GradeFault {
    Short,
    Plan(PlanFault),
}

impl From<PlanFault> for GradeFault {
    ghost from_gives = { λ e r. r ≡ OfPlan e };

    fn from(e: PlanFault) -> GradeFault {
        GradeFault::Plan(e)
    }
}

impl From<AllocError> for GradeFault {
    ghost from_gives = { λ e r. r ≡ OfPlan Memory };

    fn from(e: AllocError) -> GradeFault {
        GradeFault::Plan(PlanFault::from(e))
    }
}

// The fault by its number, layer and place.
impl From<GradeFault> for Refusal {
    ghost from_gives = { λ e r. r ≡ refused e };

    fn from(e: GradeFault) -> Refusal {
        match e {
            GradeFault::Short => Refusal {
                number: 15,
                layer: Layer::Board,
                place: 0,
            },
            GradeFault::Plan(fault) => Refusal::from(fault),
        }
    }
}
