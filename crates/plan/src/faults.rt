// Why a plan is refused.
ghost use Rattle.std.specs.Prelude.{◌≡◌};
ghost use Rattle.plan.specs.declared.faults.PlanFault.TheVariants.{Read, Typing, Memory};
ghost use Rattle.plan.specs.Faults.{refused, refused_by_reader, refused_by_typer};

use refusal::{Layer, Refusal};
use std::alloc::AllocError;

// The reader's first fault, with its place in the bytes.
#[derive(Clone, Copy, PartialEq, Eq, Debug, Drop)]
pub enum ReadFault {
    Cut(usize),
    Bits(usize),
    Limit(usize),
    Ref(usize),
    Shape(usize),
    Tail(usize),
}

// The typer's first fault, with its node, counted over all legs.
#[derive(Clone, Copy, PartialEq, Eq, Debug, Drop)]
pub enum TypeFault {
    Name(usize),
    Type(usize),
    Scope(usize),
}

// Why bytes give no plan. Want of memory says nothing about the plan.
#[derive(Clone, Copy, PartialEq, Eq, Debug, Drop)]
pub enum PlanFault {
    Read(ReadFault),
    Typing(TypeFault),
    Memory,
}

impl From<ReadFault> for PlanFault {
    ghost from_gives = { λ e r. r ≡ Read e };

    fn from(e: ReadFault) -> PlanFault {
        PlanFault::Read(e)
    }
}

impl From<TypeFault> for PlanFault {
    ghost from_gives = { λ e r. r ≡ Typing e };

    fn from(e: TypeFault) -> PlanFault {
        PlanFault::Typing(e)
    }
}

impl From<AllocError> for PlanFault {
    ghost from_gives = { λ e r. r ≡ Memory };

    fn from(_e: AllocError) -> PlanFault {
        PlanFault::Memory
    }
}

// Each fault by its number, layer and place. Each enum is matched by itself, so that a new case has to be given its number.
impl From<ReadFault> for Refusal {
    ghost from_gives = { λ e r. r ≡ refused_by_reader e };

    fn from(e: ReadFault) -> Refusal {
        let (number, place) = match e {
            ReadFault::Cut(at) => (1, at),
            ReadFault::Bits(at) => (2, at),
            ReadFault::Limit(at) => (3, at),
            ReadFault::Ref(at) => (4, at),
            ReadFault::Shape(at) => (5, at),
            ReadFault::Tail(at) => (6, at),
        };
        Refusal {
            number,
            layer: Layer::Reader,
            place,
        }
    }
}

impl From<TypeFault> for Refusal {
    ghost from_gives = { λ e r. r ≡ refused_by_typer e };

    fn from(e: TypeFault) -> Refusal {
        let (number, place) = match e {
            TypeFault::Name(node) => (7, node),
            TypeFault::Type(node) => (8, node),
            TypeFault::Scope(node) => (9, node),
        };
        Refusal {
            number,
            layer: Layer::Typer,
            place,
        }
    }
}

impl From<PlanFault> for Refusal {
    ghost from_gives = { λ e r. r ≡ refused e };

    fn from(e: PlanFault) -> Refusal {
        match e {
            PlanFault::Read(fault) => Refusal::from(fault),
            PlanFault::Typing(fault) => Refusal::from(fault),
            PlanFault::Memory => Refusal {
                number: 0,
                layer: Layer::Memory,
                place: 0,
            },
        }
    }
}
