// The nodes of a leg.
ghost use Rattle.std.specs.Prelude.{◌≡◌, ◌+◌, ◌*◌, ◌<◌, ◌≤◌, ◌≢◌, length, slice_index, vec_len};
ghost use Rattle.plan.specs.declared.Node.TheVariants.{Call};
ghost use Rattle.plan.specs.Kinds.{number_of};
ghost use Rattle.plan.specs.Trees.{the_leg};
ghost use Rattle.reader.specs.Reading.{typed_node};
ghost use Rattle.reader.specs.Replies.{arities_of, kinded_in, node_in, Reads, NodesRead};

use crate::draft::Draft;
use crate::input::{Input, type_below};
use plan::faults::ReadFault;
use plan::kinds::{NodeKind, binders_of};
use plan::{Binder, LegId, Level, Node, Row};

impl Draft {
    // A call of the leg of a number, if it is there.
    fn known_call(&self, number: u8) -> Option<Node>
        ensures { result ≡ typed_node (length (arities_of self.now.legs.items)) number (Call (the_leg number) (slice_index (arities_of self.now.legs.items) number)) }
    {
        let leg = self.legs.get(usize::from(number))?;
        Some(Node::Call(LegId { index: number }, leg.params.len() as u8))
    }

    // The node of a kind and a value, if it names a type and a leg that are there.
    fn node_of(&self, kind: NodeKind, value: u32) -> Option<Node>
        requires { (number_of kind ≢ 1) → value < 256 }
        ensures { result ≡ kinded_in self.now (number_of kind) value }
    {
        let types = self.types.len();
        let binder = Binder { index: self.next };
        match kind {
            NodeKind::Unit => Some(Node::Unit),
            NodeKind::Number => Some(Node::Number(value)),
            NodeKind::Name => Some(Node::Name(Level { index: value as u8 })),
            NodeKind::Let => Some(Node::Let(binder)),
            NodeKind::Take => Some(Node::Take(binder)),
            NodeKind::Pair => Some(Node::Pair),
            NodeKind::Split => Some(Node::Split(binder)),
            NodeKind::Left => Some(Node::Left(type_below(types, value as u8)?)),
            NodeKind::Right => Some(Node::Right(type_below(types, value as u8)?)),
            NodeKind::Case => Some(Node::Case(binder)),
            NodeKind::Call => self.known_call(value as u8),
            NodeKind::Add => Some(Node::Add),
            NodeKind::Less => Some(Node::Less),
        }
    }

    fn read_node(&self, input: &mut Input<'_>) -> Result<Node, ReadFault>
        ensures { Reads (node_in self.now) input.old input.new result }
    {
        let at = input.place();
        let (kind, value) = input.head()?;
        let place = if value == 0 { at } else { at + 1 };
        self.node_of(kind, value).ok_or(ReadFault::Ref(place))
    }

    pub(crate) fn read_nodes(
        &mut self,
        input: &mut Input<'_>,
        count: usize,
    ) -> Result<(), ReadFault>
        requires room { vec_len self.old.nodes + count ≤ 256 }
        requires few { self.old.next + 2 * count < 65536 }
        ensures { NodesRead count self.old self.new input.old input.new result }
    {
        for _ in 0..count {
            let node = self.read_node(input)?;
            self.nodes.push_reserved(Row { node, end: 0 });
            self.next += binders_of(node);
        }
        Ok(())
    }
}
