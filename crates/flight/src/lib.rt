// The machine that flies a plan over any bay: evaluation by name with frames, bindings and an arena of values, which stops and goes on.
#![tactic(auto)]

pub mod flight;
pub mod limits;
pub mod machine;

pub use flight::Flight;
