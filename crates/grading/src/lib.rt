// The least allowed grading of a plan, over any scale: what is allowed, what is least, and the laws that tie the two.
// Each law is the contract of a function that does nothing else.
#![tactic(auto)]

ghost use Rattle.grading.specs.Examples.{Examples};
ghost use Rattle.grading.specs.Laws.{LeastAllowed, LeastLeast, CeilingsOf};

use scales::scale::Scale;

// The least grading of an accepted plan is allowed.
pub fn least_is_allowed<S: Scale>()
    ensures { LeastAllowed S.ops }
{}

// Every allowed grading lies at or above the least one, at every binder and at every node.
pub fn least_is_least<S: Scale>()
    ensures { LeastLeast S.ops }
{}

// The eight ceilings are those of the least grades of main's parameters, and 0 beyond them.
pub fn ceilings_of_stores<S: Scale>()
    ensures { CeilingsOf S.ops }
{}

// Least grades of some plans, worked out.
pub fn examples()
    ensures { Examples }
{}
