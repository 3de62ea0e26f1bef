// The typing rules, one node at a time.
ghost use Rattle.std.specs.Prelude.{◌≡◌, ℕ, Ok, position};
ghost use Rattle.plan.specs.Written.{same_type};
ghost use Rattle.std.specs.List.{slice_get};
ghost use Rattle.typer.specs.Typing.{number_of, either_parts, there_at, if_same};
ghost use Rattle.typer.specs.Walk.{call_type, sigs_of, scope_of, world_in, kid_at, opened, kid_scope, two_numbers, node_type, Opens};

use crate::world::World;
use arrayvec::ArrayVec;
use plan::faults::TypeFault;
use plan::limits::MAX_LEVELS;
use plan::{LegId, Level, Node, Type, TypeId};

// Unit, number, and what a comparison gives.
pub(crate) const UNIT: TypeId = TypeId { index: 0 };

pub(crate) const NUMBER: TypeId = TypeId { index: 1 };

pub(crate) const TRUTH: TypeId = TypeId { index: 2 };

// The types of the levels in scope, from outside in.
pub(crate) type Scope = ArrayVec<TypeId, MAX_LEVELS>;

// The type of a kid; unit if there is none such.
fn kid(kids: &[TypeId], k: usize) -> TypeId
    ensures { result ≡ kid_at kids.now k }
{
    kids.get(k).copied().unwrap_or(UNIT)
}

// The type of a level, if it is in scope.
fn level_type(scope: &[TypeId], level: Level) -> Option<TypeId>
    ensures { result ≡ slice_get scope.now level.index }
{
    scope.get(usize::from(level.index)).copied()
}

// The first place of a type in the table.
fn place_of(types: &[Type], y: Type) -> Option<usize>
    ensures { result ≡ position (λ x. same_type x y) types.now }
{
    types.iter().position(|x| *x == y)
}

// Brings levels into scope, the last one innermost, if there is room for all.
fn open(at: usize, scope: &mut Scope, levels: &[TypeId]) -> Result<(), TypeFault>
    ensures { Opens (opened at (scope_of scope.old.items) levels.now) scope.old.items result scope.new.items }
{
    scope
        .try_extend_from_slice(levels)
        .map_err(|_| TypeFault::Scope(at))
}

// The type y, if x is what it has to be.
fn agree(at: usize, x: TypeId, wanted: TypeId, y: TypeId) -> Result<TypeId, TypeFault>
    ensures { result ≡ if_same at x wanted (Ok y) }
{
    if x == wanted {
        Ok(y)
    } else {
        Err(TypeFault::Type(at))
    }
}

// The type y, if both kids are numbers.
fn two_numbers(at: usize, kids: &[TypeId], y: TypeId) -> Result<TypeId, TypeFault>
    ensures { result ≡ two_numbers at kids.now y }
{
    if kid(kids, 0) == NUMBER && kid(kids, 1) == NUMBER {
        Ok(y)
    } else {
        Err(TypeFault::Type(at))
    }
}

impl World<'_> {
    // The number of a type that has to be in the table.
    fn number_of(&self, at: usize, y: Type) -> Result<TypeId, TypeFault>
        ensures { result ≡ there_at at (number_of y self.now.plan.now.types.items) }
    {
        let index = place_of(self.plan.types.as_slice(), y).ok_or(TypeFault::Type(at))?;
        Ok(TypeId { index: index as u8 })
    }

    // The type that a number stands for, if it does.
    fn type_at(&self, y: TypeId) -> Option<Type>
        ensures { result ≡ slice_get self.now.plan.now.types.items y.index }
    {
        self.plan.types.get(usize::from(y.index)).copied()
    }

    // The sides of a type that has to be an either.
    fn either_parts(&self, at: usize, y: TypeId) -> Result<(TypeId, TypeId), TypeFault>
        ensures { result ≡ there_at at (either_parts (slice_get self.now.plan.now.types.items y.index)) }
    {
        match self.type_at(y) {
            Some(Type::Either(left, right)) => Ok((left, right)),
            _ => Err(TypeFault::Type(at)),
        }
    }

    // Brings into scope what the next kid sees, once those before it have their types.
    pub(crate) fn open_kid(
        &self,
        at: usize,
        node: Node,
        scope: &mut Scope,
        kids: &[TypeId],
    ) -> Result<(), TypeFault>
        ensures { Opens (kid_scope (world_in self.now.plan.now) (scope_of scope.old.items) at node kids.now) scope.old.items result scope.new.items }
    {
        let Some(&first) = kids.first() else {
            return Ok(());
        };
        match node {
            Node::Let(_) | Node::Take(_) => open(at, scope, &[first]),
            Node::Split(_) => match self.type_at(first) {
                Some(Type::Pair(a, b)) => open(at, scope, &[a, b]),
                _ => Err(TypeFault::Type(at)),
            },
            Node::Case(_) => {
                let (left, right) = self.either_parts(at, first)?;
                open(at, scope, &[if kids.len() == 1 { left } else { right }])
            }
            _ => Ok(()),
        }
    }

    // What a call gives, if its arguments have the types that its leg takes.
    fn call_type(&self, at: usize, leg: LegId, kids: &[TypeId]) -> Result<TypeId, TypeFault>
        ensures { result ≡ call_type at (sigs_of self.now.plan.now.legs.items) leg kids.now }
    {
        match self.plan.legs.get(usize::from(leg.index)) {
            Some(callee) if kids == callee.params.as_slice() => Ok(callee.result),
            _ => Err(TypeFault::Type(at)),
        }
    }

    // The type of a node whose kids have their types.
    pub(crate) fn node_type(
        &self,
        at: usize,
        node: Node,
        scope: &[TypeId],
        kids: &[TypeId],
    ) -> Result<TypeId, TypeFault>
        ensures { result ≡ node_type (world_in self.now.plan.now) (scope_of scope.now) at node kids.now }
    {
        match node {
            Node::Unit => Ok(UNIT),
            Node::Number(_) => Ok(NUMBER),
            Node::Name(level) => level_type(scope, level).ok_or(TypeFault::Name(at)),
            Node::Let(_) | Node::Take(_) | Node::Split(_) => Ok(kid(kids, 1)),
            Node::Pair => self.number_of(at, Type::Pair(kid(kids, 0), kid(kids, 1))),
            // Two arms for the two sides: one would have to ask which it is.
            Node::Left(y) => {
                let (left, _) = self.either_parts(at, y)?;
                agree(at, kid(kids, 0), left, y)
            }
            Node::Right(y) => {
                let (_, right) = self.either_parts(at, y)?;
                agree(at, kid(kids, 0), right, y)
            }
            Node::Case(_) => agree(at, kid(kids, 1), kid(kids, 2), kid(kids, 1)),
            Node::Call(leg, _) => self.call_type(at, leg, kids),
            Node::Add => two_numbers(at, kids, NUMBER),
            Node::Less => two_numbers(at, kids, TRUTH),
        }
    }
}
