// A flat plan as the machine reads it.
ghost use Rattle.std.specs.Prelude.{◌≡◌, ◌+◌, ◌<◌, length, slice_index_or};
ghost use Rattle.flight.specs.Nodes.{kid2, no_leg};

use plan::{Leg, LegId, Row};

#[derive(Clone, Copy)]
pub(crate) struct Code<'a> {
    pub nodes: &'a [Row],
    pub legs: &'a [Leg],
}

impl<'a> Code<'a> {
    // The node behind the first kid of a node.
    pub(super) fn after_first(self, node: u16) -> u16
        requires { node + 1 < length self.nodes.now }
        ensures { result ≡ kid2 self.entry.nodes.now node }
    {
        self.nodes[node as usize + 1].end
    }

    pub(super) fn leg(self, id: LegId) -> &'a Leg
        requires { id.index < length self.legs.now }
        ensures { result.now ≡ slice_index_or self.entry.legs.now id.index no_leg }
    {
        &self.legs[id.index as usize]
    }
}
