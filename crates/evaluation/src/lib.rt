// What a flight is, and the laws that hold of every flight. Definitions and theorems only; each function stands for the law in its contract.
#![tactic(auto)]

ghost use Rattle.std.specs.Prelude.{◌≡◌};
ghost use Rattle.evaluation.specs.Bounds.{max_begun, max_depth, max_entries, max_number};
ghost use Rattle.evaluation.specs.Laws.{StocksAddUp, BoundsKept, BudgetsAdd, UnlimitedExtends, TypesKeepForm};
ghost use Rattle.evaluation.specs.Examples.{Examples};

// However a flight ends, what each store had at the start is what is left of it and the logged lookups.
pub fn stocks_add_up()
    ensures { StocksAddUp }
{}

// No flight passes a bound, and no ending comes before its bound is reached.
pub fn bounds_are_kept()
    ensures { BoundsKept }
{}

// A greater budget goes on from where a smaller one ends.
pub fn budgets_add()
    ensures { BudgetsAdd }
{}

// A limited flight goes the way of the unlimited one, as far as it goes.
pub fn unlimited_extends()
    ensures { UnlimitedExtends }
{}

// A typed plan never meets a value of the wrong form.
pub fn types_keep_form()
    ensures { TypesKeepForm }
{}

// Some flights, worked out; and the bounds.
pub fn examples_hold()
    ensures flights { Examples }
    ensures bounds { (max_begun ≡ 2048) × (max_depth ≡ 128) × (max_entries ≡ 4096) × (max_number ≡ 4294967295) }
{}
