// The types of a plan: the three that each plan has, and its own.
ghost use Rattle.std.specs.Prelude.{◌≡◌, []};
ghost use Rattle.plan.specs.Written.{built_in, listed};
ghost use Rattle.reader.specs.Reading.{entry_of, read_entry, read_table, read_front};
ghost use Rattle.reader.specs.Replies.{Reads, TypesRead};

use crate::draft::Draft;
use crate::input::Input;
use plan::faults::ReadFault;
use plan::limits::MAX_ENTRIES;
use plan::{Type, TypeId};

// The type that a tag makes of two. The tag is a byte of the format, looked at here alone.
fn entry_of(tag: u8, a: TypeId, b: TypeId) -> Type
    ensures { result ≡ entry_of tag a b }
{
    if tag == 1 {
        Type::Pair(a, b)
    } else {
        Type::Either(a, b)
    }
}

fn is_listed(table: &[Type], entry: Type) -> bool
    ensures { result ≡ listed entry table.now }
{
    table.contains(&entry)
}

// An entry of the table: a pair or an either of lower types, not there yet.
fn read_entry(input: &mut Input<'_>, table: &[Type]) -> Result<Type, ReadFault>
    ensures { Reads (λ all. read_entry all table.now) input.old input.new result }
{
    let at = input.place();
    let tag @ (1 | 2) = input.byte()? else {
        return Err(ReadFault::Ref(at));
    };
    let a = input.type_id(table.len())?;
    let b = input.type_id(table.len())?;
    let entry = entry_of(tag, a, b);
    if is_listed(table, entry) {
        Err(ReadFault::Ref(at))
    } else {
        Ok(entry)
    }
}

impl Draft {
    // The entries behind the types that each plan has.
    fn read_table(&mut self, input: &mut Input<'_>) -> Result<(), ReadFault>
        requires { self.old.types.items ≡ built_in }
        ensures { TypesRead read_table self.old self.new input.old input.new result }
    {
        let count = input.count(1, usize::from(MAX_ENTRIES))?;
        for _ in 0..count {
            let entry = read_entry(input, &self.types)?;
            self.types.push_reserved(entry);
        }
        Ok(())
    }

    // The map of the fields, a byte of the format with two forms, and the table of types if there is one.
    pub(crate) fn read_front(&mut self, input: &mut Input<'_>) -> Result<(), ReadFault>
        requires { self.old.types.items ≡ [] }
        ensures { TypesRead read_front self.old self.new input.old input.new result }
    {
        self.types.push_reserved(Type::Unit);
        self.types.push_reserved(Type::Number);
        self.types
            .push_reserved(Type::Either(TypeId { index: 0 }, TypeId { index: 0 }));
        let at = input.place();
        match input.byte()? {
            4 => Ok(()),
            6 => self.read_table(input),
            _ => Err(ReadFault::Bits(at)),
        }
    }
}
