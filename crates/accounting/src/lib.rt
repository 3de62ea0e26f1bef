// What the grades of a plan say about its flights. Theorems only: each function stands for the one in its contract, and does nothing else.
#![tactic(auto)]

ghost use Rattle.scales.specs.Laws.{ExactlyOne};
ghost use Rattle.scales.specs.Set.{set_ops};
ghost use Rattle.scales.specs.Span.{span_ops};
ghost use Rattle.scales.specs.Tally.{tally_ops};
ghost use Rattle.plan.specs.Trees.{Plan};
ghost use Rattle.evaluation.specs.Examples.{double};
ghost use Rattle.grading.specs.Laws.{Accepted};
ghost use Rattle.grading.specs.Least.{ceilings};
ghost use Rattle.accounting.specs.Accounting.{KeepsWithin, OneIsOnce, StocksSuffice, Guards, AllowedGuards};
ghost use Rattle.accounting.specs.Examples.{only, Examples};

use scales::scale::Scale;
use scales::set::Set;
use scales::span::Span;
use scales::tally::Tally;
use scales::theorems::exactly_one;

// A flight that ends DONE looks no binding up more than its binder's grade allows.
pub fn within_grades<S: Scale>()
    ensures { KeepsWithin S.ops }
{}

// Where one use is all that a grade of one allows, and not fewer, such a binder's bindings have exactly one lookup each.
pub fn one_is_once<S: Scale>()
    ensures { ExactlyOne S.ops → OneIsOnce S.ops }
{}

// So it is under tally, span and set.
pub fn once_by_tally_span_and_set()
    ensures tally { OneIsOnce tally_ops }
    ensures span { OneIsOnce span_ops }
    ensures set { OneIsOnce set_ops }
{
    exactly_one();
    one_is_once::<Tally>();
    one_is_once::<Span>();
    one_is_once::<Set>();
}

// If each store holds what the ceiling of its grade in some allowed grading allows, no flight ends EMPTY.
pub fn stocks_suffice<S: Scale>()
    ensures { StocksSuffice S.ops }
{}

// The same without a scale: the ceilings of any allowed grading guard the plan.
pub fn ceilings_guard<S: Scale>()
    ensures { AllowedGuards S.ops }
{}

// So do those of the least grades, if the reader and the typer accept the plan.
pub fn least_ceilings_guard<S: Scale>()
    ensures { (p : Plan) → Accepted p → Guards p (ceilings S.ops p) }
{}

// Gradings and flights of three plans, held against each other.
pub fn examples()
    ensures enough { Guards double (only 2) }
    ensures too_few { ¬ Guards double (only 1) }
    ensures others { Examples }
{}
