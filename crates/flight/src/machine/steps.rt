ghost use Rattle.std.specs.Prelude.{◌≡◌, ℕ, ◌+◌, ◌<◌, ◌≤◌, None, IfNone, OnSome, IfSome, List, length, slice_index_or};
ghost use Rattle.flight.specs.Nodes.{kind_at};
ghost use Rattle.flight.specs.Tables.{tables, the_spot, size_at, opened, noted, Lookup, valued, pushed};
ghost use Rattle.flight.specs.Sound.{PartOk, Poised, Leads, Tabled, Finds, Binds, bind_act, name_act, node_act, frame_act};
ghost use Rattle.flight.specs.Calling.{Calls, call_act, Waits, wait_act, Given, split_act, Splits, Halves, case_act, CasesOn, join_act, Joins, after_act};
ghost use Rattle.flight.specs.Means.{value_at};
ghost use Rattle.evaluation.specs.Flight.{as_number};

use super::{
    Binding, Code, Control, Ending, Entry, Event, FALSE, Frame, Machine, Part, Spot, TRUE, UNIT,
    What,
};
use crate::limits::MAX_ENTRIES;
use plan::{Leg, Node, Row};

impl Spot {
    // Where another node is worked out for this one.
    fn below(self, node: u16, scope: u16) -> Spot
        ensures { self.depth ≤ 128 → result ≡ the_spot node scope (self.depth + 1) }
    {
        Spot {
            node,
            scope,
            depth: self.depth.saturating_add(1),
        }
    }
}

// A place may be in the tables of one machine and not in those of another, so a call asks that it is there, and no type keeps it.
impl Machine {
    pub(super) fn note_lookup(&mut self, binder: u16, binding: u16)
        requires { length (tables self.old).log < 4096 }
        ensures { tables self.new ≡ noted (Lookup binder binding) (tables self.old) }
    {
        self.log.push_reserved(Entry {
            event: Event::Lookup,
            binder,
            binding,
        });
    }

    pub(super) fn value(&mut self, p: Part) -> u16
        requires room { length (tables self.old).values < 2051 }
        requires places { PartOk (length (tables self.old).values) p }
        ensures tables { tables self.new ≡ valued p (tables self.old) }
        ensures place { result ≡ length (tables self.old).values }
    {
        let at = self.values.len() as u16;
        self.values.push_reserved(p);
        at
    }

    fn push(&mut self, f: Frame)
        requires { length (tables self.old).frames < 128 }
        ensures { tables self.new ≡ pushed f (tables self.old) }
    {
        self.frames.push_reserved(f);
    }

    // How many names a scope has.
    fn size(&self, scope: u16) -> u16
        requires { scope ≤ length (tables self.now).bindings }
        ensures { result ≡ size_at (tables self.now).bindings scope }
    {
        if scope == 0 {
            0
        } else {
            self.bindings[scope as usize - 1].level + 1
        }
    }

    // A new binding on a scope; the answer is the scope with it.
    pub(super) fn open(&mut self, binder: u16, what: What, parent: u16) -> u16
        requires room { length (tables self.old).log < 4096 }
        requires within { parent ≤ length (tables self.old).bindings }
        ensures tables { tables self.new ≡ opened binder what parent (tables self.old) }
        ensures scope { result ≡ length (tables self.old).bindings + 1 }
    {
        let level = self.size(parent);
        let number = self.bindings.len() as u16;
        self.bindings.push_reserved(Binding {
            binder,
            level,
            parent,
            what,
        });
        self.log.push_reserved(Entry {
            event: Event::Made,
            binder,
            binding: number,
        });
        number + 1
    }

    // The same, unless the log is full.
    fn try_open(&mut self, binder: u16, what: What, parent: u16) -> Option<u16>
        requires { parent ≤ length (tables self.old).bindings }
        ensures full { IfNone result ((length (tables self.old).log ≡ 4096) × (tables self.new ≡ tables self.old)) }
        ensures room { OnSome result (length (tables self.old).log < 4096) }
        ensures tables { OnSome result (tables self.new ≡ opened binder what parent (tables self.old)) }
        ensures scope { IfSome result (λ inner. inner ≡ length (tables self.old).bindings + 1) }
    {
        if self.log.len() == MAX_ENTRIES {
            None
        } else {
            Some(self.open(binder, what, parent))
        }
    }

    // The binding that a name at a level means in a scope.
    fn find(&self, scope: u16, level: u16) -> u16
        requires within { scope ≤ length (tables self.now).bindings }
        requires named { level < size_at (tables self.now).bindings scope }
        ensures there { result < length (tables self.now).bindings }
        ensures finds { Tabled (tables self.now) → Finds (tables self.now) scope level result }
    {
        let mut at = scope;
        while self.bindings[at as usize - 1].level != level {
            at = self.bindings[at as usize - 1].parent;
        }
        at - 1
    }

    // A lookup of the name at a level.
    fn look(&mut self, spot: Spot, level: u16) -> Control
        requires within { spot.scope ≤ length (tables self.old).bindings }
        requires named { level < size_at (tables self.old).bindings spot.scope }
        ensures { (ns : List Row) (gs : List Leg) → Poised ns gs (tables self.old) spot → Leads ns gs (tables self.old) (name_act (tables self.old) level spot) (tables self.new) result }
    {
        let at = self.find(spot.scope, level);
        let b = self.bindings[at as usize];
        if self.log.len() == MAX_ENTRIES {
            return Control::Over(Ending::Full);
        }
        match b.what {
            What::Thunk(kid, outer) => {
                self.note_lookup(b.binder, at);
                Control::Eval(spot.below(kid, outer))
            }
            What::Kept(v) => {
                self.note_lookup(b.binder, at);
                Control::Return(v)
            }
            What::Store => Control::Draw(b.binder, at),
        }
    }

    // A binding on the scope, and then the node `body` with it.
    fn bind(&mut self, spot: Spot, binder: u16, what: What, body: u16) -> Control
        requires { spot.scope ≤ length (tables self.old).bindings }
        ensures { (ns : List Row) (gs : List Leg) → Binds ns gs (tables self.old) what body spot → Leads ns gs (tables self.old) (bind_act (tables self.old) binder what body spot) (tables self.new) result }
    {
        match self.try_open(binder, what, spot.scope) {
            None => Control::Over(Ending::Full),
            Some(inner) => Control::Eval(spot.below(body, inner)),
        }
    }

    // Waits for a kid of the node.
    fn wait(&mut self, spot: Spot, first: Option<u16>, kid: u16) -> Control
        requires { length (tables self.old).frames < 128 }
        ensures { (ns : List Row) (gs : List Leg) → Waits ns gs (tables self.old) spot first kid → Leads ns gs (tables self.old) (wait_act ns (tables self.old) spot first kid) (tables self.new) result }
    {
        self.push(Frame { spot, first });
        Control::Eval(spot.below(kid, spot.scope))
    }

    // Binds the arguments of a call, and begins the leg's body.
    fn call(&mut self, code: Code, spot: Spot, leg: &Leg, count: u8) -> Control
        requires { Calls code.nodes.now code.legs.now (tables self.old) leg.now count spot }
        ensures { Leads code.entry.nodes.now code.entry.legs.now (tables self.old) (call_act code.entry.nodes.now (tables self.old) leg.now count spot) (tables self.new) result }
    {
        let mut inner = 0;
        let mut kid = spot.node + 1;
        for k in 0..count {
            let binder = leg.binder.index + u16::from(k);
            let Some(scope) = self.try_open(binder, What::Thunk(kid, spot.scope), inner) else {
                return Control::Over(Ending::Full);
            };
            inner = scope;
            kid = code.nodes[kid as usize].end;
        }
        Control::Eval(spot.below(leg.first, inner))
    }

    // What a node does once its evaluation has begun.
    pub(super) fn work(&mut self, code: Code, spot: Spot) -> Control
        requires { Poised code.nodes.now code.legs.now (tables self.old) spot }
        ensures { Leads code.entry.nodes.now code.entry.legs.now (tables self.old) (node_act code.entry.nodes.now code.entry.legs.now (tables self.old) spot) (tables self.new) result }
    {
        let node = spot.node;
        match code.nodes[node as usize].node {
            Node::Unit => Control::Return(UNIT),
            Node::Number(x) => Control::Return(self.value(Part::Num(x))),
            Node::Name(level) => self.look(spot, level.index as u16),
            Node::Let(binder) => {
                let bound = What::Thunk(node + 1, spot.scope);
                let body = code.after_first(node);
                self.bind(spot, binder.index, bound, body)
            }
            Node::Call(leg, count) => self.call(code, spot, code.leg(leg), count),
            _ => self.wait(spot, None, node + 1),
        }
    }

    fn part(&self, v: u16) -> Part
        requires { v < length (tables self.now).values }
        ensures { result ≡ slice_index_or (tables self.now).values v Part.Nothing }
    {
        self.values[v as usize]
    }

    pub(super) fn number(&self, v: u16) -> u32
        requires { v < length (tables self.now).values }
        ensures { result ≡ as_number (value_at (tables self.now).values v) }
    {
        match self.part(v) {
            Part::Num(x) => x,
            _ => 0,
        }
    }

    fn halves(&self, v: u16) -> (u16, u16)
        requires { v < length (tables self.now).values }
        ensures { Halves (tables self.now) v result.0 result.1 }
    {
        match self.part(v) {
            Part::Both(a, b) => (a, b),
            _ => (0, 0),
        }
    }

    // Binds the parts of a pair, and then goes on with the body.
    fn split(&mut self, spot: Spot, binder: u16, parts: (u16, u16), body: u16) -> Control
        requires within { spot.scope ≤ length (tables self.old).bindings }
        requires first { parts.0 < length (tables self.old).values }
        requires second { parts.1 < length (tables self.old).values }
        requires fits { binder < 65535 }
        ensures { (ns : List Row) (gs : List Leg) → Splits ns gs (tables self.old) binder parts.0 body spot → Leads ns gs (tables self.old) (split_act (tables self.old) binder parts.0 parts.1 body spot) (tables self.new) result }
    {
        let Some(outer) = self.try_open(binder, What::Kept(parts.0), spot.scope) else {
            return Control::Over(Ending::Full);
        };
        let Some(inner) = self.try_open(binder + 1, What::Kept(parts.1), outer) else {
            return Control::Over(Ending::Full);
        };
        Control::Eval(spot.below(body, inner))
    }

    // Goes on with the branch that the value says.
    fn branch(&mut self, code: Code, spot: Spot, binder: u16, v: u16) -> Control
        requires { CasesOn code.nodes.now code.legs.now (tables self.old) binder v spot }
        ensures { Leads code.entry.nodes.now code.entry.legs.now (tables self.old) (case_act code.entry.nodes.now (tables self.old) binder v spot) (tables self.new) result }
    {
        let left = code.after_first(spot.node);
        match self.part(v) {
            Part::InLeft(u) => self.bind(spot, binder, What::Kept(u), left),
            Part::InRight(u) => {
                let right = code.nodes[left as usize].end;
                self.bind(spot, binder + 1, What::Kept(u), right)
            }
            _ => self.bind(spot, binder, What::Kept(UNIT), left),
        }
    }

    // Both kids have given their values.
    fn join(&mut self, code: Code, spot: Spot, u: u16, v: u16) -> Control
        requires { Joins code.nodes.now code.legs.now (tables self.old) u v spot }
        ensures { Leads code.entry.nodes.now code.entry.legs.now (tables self.old) (join_act (tables self.old) (kind_at code.entry.nodes.now spot.node) u v) (tables self.new) result }
    {
        match code.nodes[spot.node as usize].node {
            Node::Pair => Control::Return(self.value(Part::Both(u, v))),
            Node::Add => {
                let sum = self.number(u).saturating_add(self.number(v));
                Control::Return(self.value(Part::Num(sum)))
            }
            Node::Less => Control::Return(if self.number(u) < self.number(v) {
                TRUE
            } else {
                FALSE
            }),
            _ => Control::Return(v),
        }
    }

    // What a node does once its first kid gave a value.
    fn after(&mut self, code: Code, spot: Spot, v: u16) -> Control
        requires { Given code.nodes.now code.legs.now (tables self.old) spot None v }
        ensures { Leads code.entry.nodes.now code.entry.legs.now (tables self.old) (after_act code.entry.nodes.now (tables self.old) spot v) (tables self.new) result }
    {
        let node = spot.node;
        match code.nodes[node as usize].node {
            Node::Take(binder) => {
                let body = code.after_first(node);
                self.bind(spot, binder.index, What::Kept(v), body)
            }
            Node::Split(binder) => {
                let body = code.after_first(node);
                let parts = self.halves(v);
                self.split(spot, binder.index, parts, body)
            }
            Node::Left(_) => Control::Return(self.value(Part::InLeft(v))),
            Node::Right(_) => Control::Return(self.value(Part::InRight(v))),
            Node::Case(binder) => self.branch(code, spot, binder.index, v),
            Node::Pair | Node::Add | Node::Less => {
                let kid = code.after_first(node);
                self.wait(spot, Some(v), kid)
            }
            _ => Control::Return(v),
        }
    }

    // A frame is given the value that it waits for.
    pub(super) fn resume(&mut self, code: Code, frame: Frame, v: u16) -> Control
        requires { Given code.nodes.now code.legs.now (tables self.old) frame.spot frame.first v }
        ensures { Leads code.entry.nodes.now code.entry.legs.now (tables self.old) (frame_act code.entry.nodes.now (tables self.old) frame v) (tables self.new) result }
    {
        let spot = frame.spot;
        match frame.first {
            None => self.after(code, spot, v),
            Some(u) => self.join(code, spot, u, v),
        }
    }
}
