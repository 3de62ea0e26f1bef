// The bytes of a plan, read from the front.
ghost use Rattle.std.specs.Prelude.{◌≡◌, ◌≤◌, cond, nat_lt, length, Some, None};
ghost use Rattle.plan.specs.Trees.{the_type};

use plan::TypeId;
use plan::faults::ReadFault;
use plan::kinds::{Field, NodeKind, shape_of};
use plan::limits::MAX_NODES;

// The type of a number, if it is below `types`.
pub(crate) fn type_below(types: usize, index: u8) -> Option<TypeId>
    ensures { result ≡ cond (nat_lt index types) (Some (the_type index)) None }
{
    if usize::from(index) < types {
        Some(TypeId { index })
    } else {
        None
    }
}

// The bytes that are left of so many in all. A place is the number of bytes in front of it.
#[derive(Drop)]
pub(crate) struct Input<'a> {
    all: usize,
    rest: &'a [u8],
    ghost within: { length rest.now ≤ all },
}

impl<'a> Input<'a> {
    ghost use Rattle.std.specs.Prelude.{◌+◌, ◌-◌, ◌==◌, IfOk};
    ghost use Rattle.plan.specs.declared.faults.ReadFault.TheVariants.{Limit};
    ghost use Rattle.reader.specs.Reading.{byte_if, between, read_type, read_count};
    ghost use Rattle.reader.specs.Replies.{Reads, first_byte, FieldRead, HeadRead};

    pub(crate) fn new(bytes: &'a [u8]) -> Input<'a>
        ensures all { result.all ≡ length bytes.now }
        ensures rest { result.rest.now ≡ bytes.now }
    {
        Input {
            all: bytes.len(),
            rest: bytes,
        }
    }

    pub(crate) fn place(&self) -> usize
        ensures { result ≡ self.now.all - length self.now.rest.now }
    {
        self.all - self.rest.len()
    }

    pub(crate) fn is_empty(&self) -> bool
        ensures { result ≡ (length self.now.rest.now == 0) }
    {
        self.rest.is_empty()
    }

    pub(crate) fn byte(&mut self) -> Result<u8, ReadFault>
        ensures { Reads first_byte self.old self.new result }
    {
        let [byte, rest @ ..] = self.rest else {
            return Err(ReadFault::Cut(self.all));
        };
        self.rest = rest;
        Ok(*byte)
    }

    // A type number below `types`.
    pub(crate) fn type_id(&mut self, types: usize) -> Result<TypeId, ReadFault>
        ensures { Reads (λ all. read_type all types) self.old self.new result }
    {
        let at = self.place();
        type_below(types, self.byte()?).ok_or(ReadFault::Ref(at))
    }

    // A count of one byte, from `low` to `high`.
    pub(crate) fn count(&mut self, low: usize, high: usize) -> Result<usize, ReadFault>
        ensures read { Reads (byte_if (between low high) Limit) self.old self.new result }
        ensures few { IfOk result (λ n. n ≤ high) }
    {
        let at = self.place();
        let count = usize::from(self.byte()?);
        if low <= count && count <= high {
            Ok(count)
        } else {
            Err(ReadFault::Limit(at))
        }
    }

    // A count of nodes in two bytes, for a plan that has `used` before them. Not one function with `count`:
    // other bytes and another bound would make it longer than the two.
    pub(crate) fn node_count(&mut self, used: usize) -> Result<usize, ReadFault>
        requires few { used ≤ 256 }
        ensures read { Reads (λ all. read_count all used) self.old self.new result }
        ensures few { IfOk result (λ n. used + n ≤ 256) }
    {
        let at = self.place();
        let [high, low, rest @ ..] = self.rest else {
            return Err(ReadFault::Cut(self.all));
        };
        let count = usize::from(u16::from_be_bytes([*high, *low]));
        if count == 0 || used + count > MAX_NODES {
            return Err(ReadFault::Limit(at));
        }
        self.rest = rest;
        Ok(count)
    }

    // A field that is written is not zero.
    fn field(
        &mut self,
        kind: NodeKind,
        value: u32,
        rest: &'a [u8],
    ) -> Result<(NodeKind, u32), ReadFault>
        requires behind { length rest.now ≤ length self.old.rest.now }
        ensures { FieldRead kind value rest.now self.old self.new result }
    {
        if value == 0 {
            return Err(ReadFault::Bits(self.place()));
        }
        self.rest = rest;
        Ok((kind, value))
    }

    // The first byte of a node and its field: the kind and the value, zero where none is written.
    pub(crate) fn head(&mut self) -> Result<(NodeKind, u32), ReadFault>
        ensures { HeadRead self.old self.new result }
    {
        let bytes = self.rest;
        let [head, ..] = bytes else {
            return Err(ReadFault::Cut(self.all));
        };
        match (shape_of(*head), bytes) {
            (None, _) => Err(ReadFault::Bits(self.place())),
            (Some((kind, Field::Absent)), [_, rest @ ..]) => {
                self.rest = rest;
                Ok((kind, 0))
            }
            (Some((kind, Field::Byte)), [_, x, rest @ ..]) => {
                self.field(kind, u32::from(*x), rest)
            }
            (Some((kind, Field::Number)), [_, a, b, c, d, rest @ ..]) => {
                self.field(kind, u32::from_be_bytes([*a, *b, *c, *d]), rest)
            }
            _ => Err(ReadFault::Cut(self.all)),
        }
    }
}
