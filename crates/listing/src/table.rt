// A plan's binders by their numbers: what binds each, and its least grade under three scales.
ghost use Rattle.std.specs.Prelude.{◌≡◌, vec_len};

use crate::BinderKind;
use scales::set::Set;
use scales::span::Span;
use scales::tally::Tally;

pub mod make;
pub mod text;

// Four columns and no vector of lines: the lines are made as they are printed, and printing takes no memory.
#[derive(Drop)]
pub struct Listing {
    kinds: Vec<BinderKind>,
    tallies: Vec<Tally>,
    spans: Vec<Span>,
    sets: Vec<Set>,
    ghost tallied: { vec_len tallies ≡ vec_len kinds },
    ghost spanned: { vec_len spans ≡ vec_len kinds },
    ghost counted: { vec_len sets ≡ vec_len kinds },
}

// What is printed of one binder.
#[derive(Clone, Copy, Drop)]
pub struct Line {
    pub binder: usize,
    pub kind: BinderKind,
    pub tally: Tally,
    pub span: Span,
    pub set: Set,
}
