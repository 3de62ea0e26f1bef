// The legs of a plan.
ghost use Rattle.std.specs.Prelude.{◌≡◌, ◌≤◌, [], vec_len, vec_capacity};
ghost use Rattle.plan.specs.Table.{Standing, Closed};
ghost use Rattle.reader.specs.Replies.{ParamsRead, OneLegRead, LegsRead};

use crate::draft::Draft;
use crate::input::Input;
use crate::table::close;
use arrayvec::ArrayVec;
use plan::faults::ReadFault;
use plan::limits::{MAX_LEGS, MAX_PARAMS};
use plan::{Binder, Leg, Params, Row};

// A count of parameters and their types.
fn read_params(input: &mut Input<'_>, types: usize) -> Result<Params, ReadFault>
    ensures { ParamsRead types input.old input.new result }
{
    let count = input.count(0, MAX_PARAMS)?;
    let mut params = ArrayVec::new();
    for _ in 0..count {
        let param = input.type_id(types)?;
        params.push(param);
    }
    Ok(Params::from(params))
}

// Writes the ends of the nodes from `first` on; whether they are one expression.
fn close_leg(nodes: &mut Vec<Row>, first: usize) -> bool
    requires within { first ≤ vec_len nodes.old }
    requires few { vec_len nodes.old ≤ 256 }
    ensures closed { Closed first nodes.old.items nodes.new.items result }
    ensures cap { vec_capacity nodes.new ≡ vec_capacity nodes.old }
    ensures len { vec_len nodes.new ≡ vec_len nodes.old }
{
    close(nodes, first)
}

impl Draft {
    // A leg, its nodes behind those of the legs before it.
    fn read_leg(&mut self, input: &mut Input<'_>) -> Result<Leg, ReadFault>
        requires low { self.old.next ≤ 640 }
        requires stands { Standing 0 self.old.nodes.items }
        ensures { OneLegRead self.old self.new input.old input.new result }
    {
        let types = self.types.len();
        let first = self.nodes.len();
        let binder = Binder { index: self.next };
        let params = read_params(input, types)?;
        let result = input.type_id(types)?;
        let body = input.place();
        let size = input.node_count(first)?;
        self.next += params.len() as u16;
        self.read_nodes(input, size)?;
        if !close_leg(&mut self.nodes, first) {
            return Err(ReadFault::Shape(body));
        }
        Ok(Leg {
            params,
            result,
            first: first as u16,
            binder,
        })
    }

    // The legs, and their nodes one behind the other.
    pub(crate) fn read_legs(&mut self, input: &mut Input<'_>) -> Result<(), ReadFault>
        requires no_legs { self.old.legs.items ≡ [] }
        requires no_nodes { self.old.nodes.items ≡ [] }
        requires no_binders { self.old.next ≡ 0 }
        ensures { LegsRead self.old self.new input.old input.new result }
    {
        let count = input.count(1, usize::from(MAX_LEGS))?;
        for _ in 0..count {
            let leg = self.read_leg(input)?;
            self.legs.push_reserved(leg);
        }
        Ok(())
    }
}
