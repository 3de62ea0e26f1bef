// A leg's parameter types.
ghost use Rattle.std.specs.Prelude.{◌≡◌, ◌≤◌, length, nat_eq};
ghost use Rattle.std.specs.Ordering.{on};
ghost use Rattle.std.specs.Cmp.{nat_eq_equiv, partial_equiv_from_equiv, on_equiv, on_per};
ghost use Rattle.std.specs.Cmp.Lexicographic.{pointwise, lists_equiv, lists_per};

use crate::TypeId;
use crate::limits::MAX_PARAMS;
use arrayvec::ArrayVec;
use std::fmt;
use std::marker::Model;

// The types of a leg's parameters, at most eight, in the leg itself. A type of its own, since a leg is copied and an `ArrayVec` is not.
#[derive(Clone, Copy, Drop)]
pub struct Params {
    types: [TypeId; MAX_PARAMS],
    count: u8,
}

impl Model for Params {
    ghost use Rattle.std.specs.Prelude.{◌≡◌, ◌≤◌, ◌++◌, length, take, drop};
    ghost use Rattle.std.proofs.Common.{arith, take-append-drop, length-take-le};
    ghost use Rattle.plan.specs.Params.{Params as Few};

    ghost Value = { Few };

    ghost view = { λ p. record { items = take p.count p.types; spare = drop p.count p.types } };

    ghost invariant = { λ p. (p.count ≤ 8) × (length p.types ≡ 8) };

    ghost inverse = { λ s. record { types = s.items ++ s.spare; count = length s.items } };

    ghost inverse_ok = { λ p h i. record {
      types = take-append-drop p.count p.types i;
      count = length-take-le p.count p.types (omega (arith, h.0, h.1)) i;
    } };
}

impl From<ArrayVec<TypeId, MAX_PARAMS>> for Params {
    ghost from_gives = { λ v p. p.items ≡ v.items };

    fn from(all: ArrayVec<TypeId, MAX_PARAMS>) -> Params {
        let mut types = [TypeId::default(); MAX_PARAMS];
        types[..all.len()].copy_from_slice(all.as_slice());
        Params {
            types,
            count: all.len() as u8,
        }
    }
}

impl Params {
    pub fn len(&self) -> usize
        ensures value { result ≡ length self.now.items }
        ensures fits { result ≤ 8 }
    {
        self.as_slice().len()
    }

    pub fn as_slice(&self) -> &[TypeId]
        ensures value { result.now ≡ self.now.items }
        ensures fits { length result.now ≤ 8 }
    {
        &self.types[..usize::from(self.count)]
    }
}

impl PartialEq for Params {
    ghost eq = { λ p q. pointwise (on (λ y. y.index) nat_eq) p.items q.items };

    ghost laws = { on_per (λ p. p.items) (lists_per (on_per (λ y. y.index) (partial_equiv_from_equiv nat_eq_equiv))) };

    fn eq(&self, other: &Params) -> bool {
        self.as_slice() == other.as_slice()
    }
}

impl Eq for Params {
    ghost laws = { on_equiv (λ p. p.items) (lists_equiv (on_equiv (λ y. y.index) nat_eq_equiv)) };
}

impl fmt::Debug for Params {
    fn fmt<W: fmt::Write>(&self, f: &mut fmt::Formatter<W>) -> fmt::Result {
        f.debug_list().entries(self.as_slice()).finish()
    }
}
