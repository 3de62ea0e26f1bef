// A plan's binders, listed as the programs print them.
#![tactic(auto)]

ghost use Rattle.std.specs.Prelude.{◌≡◌, Some};
ghost use Rattle.listing.specs.Names.{kind_name};

use std::fmt;

pub mod binders;
pub mod print;
pub mod table;

// What binds a name: a leg's parameter, a let or take, a part of a split, a branch of a case.
#[derive(Clone, Copy, PartialEq, Eq, Debug, Drop)]
pub enum BinderKind {
    Param,
    Let,
    Take,
    First,
    Second,
    Left,
    Right,
}

impl BinderKind {
    // The kind as it is printed.
    pub fn name(self) -> &'static str
        ensures { result.now ≡ kind_name self }
    {
        match self {
            BinderKind::Param => "param",
            BinderKind::Let => "let",
            BinderKind::Take => "take",
            BinderKind::First => "first",
            BinderKind::Second => "second",
            BinderKind::Left => "left",
            BinderKind::Right => "right",
        }
    }
}

impl fmt::Display for BinderKind {
    ghost output = { λ k. Some (kind_name k) };

    fn fmt<W: fmt::Write>(&self, f: &mut fmt::Formatter<W>) -> fmt::Result {
        f.write_str(self.name())
    }
}
