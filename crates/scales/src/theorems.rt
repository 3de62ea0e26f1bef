// Theorems about the scales together, each the contract of a function that does nothing else.
ghost use Rattle.std.specs.Prelude.{◌≡◌};
ghost use Rattle.std.specs.Ordering.{partial_le, ord_max, ord_min};
ghost use Rattle.scales.specs.Ends.{end_leq, end_max, end_min};
ghost use Rattle.scales.specs.Examples.{Examples};
ghost use Rattle.scales.specs.Laws.{ExactlyOne};
ghost use Rattle.scales.specs.Set.{set_ops};
ghost use Rattle.scales.specs.Span.{span_ops};
ghost use Rattle.scales.specs.Tally.{tally_ops};

use crate::scale::Ceiling;

// Sums and scalings of spans and sets, worked out.
#[tactic(auto, using(crate::proofs::WorkedOut::examples))]
pub fn examples()
    ensures { Examples }
{}

// The order of ceilings is the one of a span's high ends.
pub fn order_of_ceilings()
    ensures order { (c d : Ceiling) → partial_le ⟦<Ceiling as PartialOrd>⟧.partial_cmp c d ≡ end_leq c d }
    ensures larger { (c d : Ceiling) → ord_max ⟦<Ceiling as Ord>⟧.cmp c d ≡ end_max c d }
    ensures smaller { (c d : Ceiling) → ord_min ⟦<Ceiling as Ord>⟧.cmp c d ≡ end_min c d }
{}

// Under tally, span and set, k uses within a grade of one are exactly one use.
#[tactic(auto, using(crate::proofs::SetMembers::set_exact, crate::specs::SpanLaws::span_exact, crate::specs::TallyLaws::tally_exact))]
pub fn exactly_one()
    ensures tally { ExactlyOne tally_ops }
    ensures span { ExactlyOne span_ops }
    ensures set { ExactlyOne set_ops }
{}
