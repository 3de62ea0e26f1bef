// The thirteen kinds of node.
ghost use Rattle.std.specs.Prelude.{◌≡◌, ℕ, ◌<◌, ◌≤◌};
ghost use Rattle.plan.specs.Kinds.{kind_of, number_of, rule, Numbered, arguments_of, kids_of, binders, shape_of, by_number};

use crate::Node;

// What may stand between a node's first byte and the next node.
#[derive(Clone, Copy, PartialEq, Eq, Debug, Drop)]
pub enum Field {
    Absent,
    Byte,
    Number,
}

// How many kids a node has. Not an `Option`: a call's count is not missing, the node itself has it.
#[derive(Clone, Copy, PartialEq, Eq, Debug, Drop)]
pub enum Kids {
    Fixed(u8),
    Arguments,
}

// A node's kind, in the order of the numbers that first bytes have for them.
#[derive(Clone, Copy, PartialEq, Eq, Debug, Drop)]
pub enum NodeKind {
    Unit,
    Number,
    Name,
    Let,
    Take,
    Pair,
    Split,
    Left,
    Right,
    Case,
    Call,
    Add,
    Less,
}

// A number that no kind of node has.
#[derive(Clone, Copy, PartialEq, Eq, Debug, Drop)]
pub struct UnknownKind {
    pub number: u8,
}

impl TryFrom<u8> for NodeKind {
    type Error = UnknownKind;

    ghost try_from_gives = { Numbered };

    fn try_from(number: u8) -> Result<NodeKind, UnknownKind> {
        match number {
            0 => Ok(NodeKind::Unit),
            1 => Ok(NodeKind::Number),
            2 => Ok(NodeKind::Name),
            3 => Ok(NodeKind::Let),
            4 => Ok(NodeKind::Take),
            5 => Ok(NodeKind::Pair),
            6 => Ok(NodeKind::Split),
            7 => Ok(NodeKind::Left),
            8 => Ok(NodeKind::Right),
            9 => Ok(NodeKind::Case),
            10 => Ok(NodeKind::Call),
            11 => Ok(NodeKind::Add),
            12 => Ok(NodeKind::Less),
            _ => Err(UnknownKind { number }),
        }
    }
}

impl From<Node> for NodeKind {
    ghost from_gives = { λ node kind. number_of kind ≡ kind_of node };

    fn from(node: Node) -> NodeKind {
        match node {
            Node::Unit => NodeKind::Unit,
            Node::Number(_) => NodeKind::Number,
            Node::Name(_) => NodeKind::Name,
            Node::Let(_) => NodeKind::Let,
            Node::Take(_) => NodeKind::Take,
            Node::Pair => NodeKind::Pair,
            Node::Split(_) => NodeKind::Split,
            Node::Left(_) => NodeKind::Left,
            Node::Right(_) => NodeKind::Right,
            Node::Case(_) => NodeKind::Case,
            Node::Call(_, _) => NodeKind::Call,
            Node::Add => NodeKind::Add,
            Node::Less => NodeKind::Less,
        }
    }
}

#[derive(Clone, Copy, PartialEq, Eq, Debug, Drop)]
pub struct Kind {
    pub field: Field,
    pub kids: Kids,
    pub binders: u8,
}

// By the number in a node's first byte: unit, number, name, let, take, pair, split, left, right, case, call, add, less.
pub const KINDS: [Kind; 13] = [
    Kind {
        field: Field::Absent,
        kids: Kids::Fixed(0),
        binders: 0,
    },
    Kind {
        field: Field::Number,
        kids: Kids::Fixed(0),
        binders: 0,
    },
    Kind {
        field: Field::Byte,
        kids: Kids::Fixed(0),
        binders: 0,
    },
    Kind {
        field: Field::Absent,
        kids: Kids::Fixed(2),
        binders: 1,
    },
    Kind {
        field: Field::Absent,
        kids: Kids::Fixed(2),
        binders: 1,
    },
    Kind {
        field: Field::Absent,
        kids: Kids::Fixed(2),
        binders: 0,
    },
    Kind {
        field: Field::Absent,
        kids: Kids::Fixed(2),
        binders: 2,
    },
    Kind {
        field: Field::Byte,
        kids: Kids::Fixed(1),
        binders: 0,
    },
    Kind {
        field: Field::Byte,
        kids: Kids::Fixed(1),
        binders: 0,
    },
    Kind {
        field: Field::Absent,
        kids: Kids::Fixed(3),
        binders: 2,
    },
    Kind {
        field: Field::Byte,
        kids: Kids::Arguments,
        binders: 0,
    },
    Kind {
        field: Field::Absent,
        kids: Kids::Fixed(2),
        binders: 0,
    },
    Kind {
        field: Field::Absent,
        kids: Kids::Fixed(2),
        binders: 0,
    },
];

impl NodeKind {
    // The kind's line of the table.
    fn rule(self) -> Kind
        ensures { result ≡ rule (number_of self) }
    {
        KINDS[self as usize]
    }
}

// How many arguments a call has; none for every other node.
fn arguments_of(node: Node) -> u8
    ensures { result ≡ arguments_of node }
{
    match node {
        Node::Call(_, count) => count,
        _ => 0,
    }
}

// How many kids stand behind a node.
pub fn kids_of(node: Node) -> usize
    ensures { result ≡ kids_of node }
{
    match NodeKind::from(node).rule().kids {
        Kids::Fixed(count) => usize::from(count),
        Kids::Arguments => usize::from(arguments_of(node)),
    }
}

// How many names a node binds.
pub fn binders_of(node: Node) -> u16
    ensures is { result ≡ binders node }
    ensures few { result ≤ 2 }
{
    u16::from(NodeKind::from(node).rule().binders)
}

// The kind in a node's first byte and the field that it announces; none if it is no first byte of a node.
pub fn shape_of(head: u8) -> Option<(NodeKind, Field)>
    ensures { by_number result ≡ shape_of head }
{
    let kind = NodeKind::try_from(head % 16).ok()?;
    match (head / 16, kind.rule().field) {
        (0, _) => Some((kind, Field::Absent)),
        (1, Field::Byte) => Some((kind, Field::Byte)),
        (2, Field::Number) => Some((kind, Field::Number)),
        _ => None,
    }
}
