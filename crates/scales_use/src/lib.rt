// Scales used from another crate: generic code whose proof rests on a theorem over every lawful scale,
// the same code at two scales, and tests of the four scales.
#![tactic(auto)]

ghost use Rattle.std.specs.Prelude.{◌≡◌, ◌++◌};
ghost use Rattle.scales.specs.Pair.{pair_ops};
ghost use Rattle.scales.specs.Rows.{total};
ghost use Rattle.scales.specs.Set.{set_ops};
ghost use Rattle.scales.specs.Tally.{tally_ops};
ghost use Rattle.scales.specs.declared.tally.Tally.TheVariants.{Many};

use scales::pair::Pair;
use scales::rows;
use scales::scale::Scale;
use scales::set::Set;
use scales::tally::Tally;

// The sum of two rows, of which the second comes first.
pub fn sum_both<S: Scale>(xs: &[S], ys: &[S]) -> S
    ensures { result ≡ total S.ops (ys.now ++ xs.now) }
{
    rows::sum(xs).add(rows::sum(ys))
}

// The same at a scale, and at two scales side by side.
pub fn two_ones() -> Tally
    ensures { result ≡ Many }
{
    sum_both(&[Tally::One], &[Tally::One, Tally::Zero])
}

pub fn sum_pairs(xs: &[Pair<Tally, Set>], ys: &[Pair<Tally, Set>]) -> Pair<Tally, Set>
    ensures { result ≡ total (pair_ops tally_ops set_ops) (ys.now ++ xs.now) }
{
    sum_both(xs, ys)
}

#[cfg(test)]
mod tests;
