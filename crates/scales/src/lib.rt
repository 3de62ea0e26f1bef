// Scales of use: how often a thing may be used, as grades that add, scale, compare and join under laws.
// A scale is a type with an impl of `Scale`; tally, span, set and pair are each a file of their own.
#![tactic(auto)]

pub mod ends;
pub mod pair;
pub mod rows;
pub mod scale;
pub mod set;
pub mod span;
pub mod tally;
pub mod theorems;
