// The grader: the least grades of a plan, over any scale.
#![tactic(auto)]

pub mod contexts;
pub mod faults;
pub mod grades;
pub mod rules;
pub mod stores;
pub mod walk;
