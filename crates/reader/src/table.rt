// The ends of expressions in a table of nodes in prefix order.
ghost use Rattle.std.specs.Prelude.{◌≡◌, ◌≤◌, List, length, drop};
ghost use Rattle.std.proofs.Math.Option.{some};
ghost use Rattle.plan.specs.Trees.{Term, stack};
ghost use Rattle.plan.specs.Table.{skipped, Ended, Closed, nodes_of};

use plan::Row;
use plan::kinds::kids_of;

// The place after so many expressions, or none if the table ends before.
fn skip(nodes: &[Row], at: usize, count: usize) -> Option<usize>
    requires ended { Ended at nodes.now }
    requires within { at ≤ length nodes.now }
    ensures { (ts : List Term) → stack (drop at (nodes_of nodes.now)) ≡ some ts → result ≡ skipped at count ts }
{
    let mut place = at;
    for _ in 0..count {
        place = usize::from(nodes.get(place)?.end);
    }
    Some(place)
}

// Writes the ends of the expressions from `first` on; whether these are exactly one.
// By index, since a node's end is looked up among all the rows behind it.
pub(crate) fn close(nodes: &mut [Row], first: usize) -> bool
    requires within { first ≤ length nodes.old }
    requires few { length nodes.old ≤ 256 }
    ensures { Closed first nodes.old nodes.new result }
{
    for i in (first..nodes.len()).rev() {
        let Some(end) = skip(nodes, i + 1, kids_of(nodes[i].node)) else {
            return false;
        };
        nodes[i].end = end as u16;
    }
    first < nodes.len() && usize::from(nodes[first].end) == nodes.len()
}
