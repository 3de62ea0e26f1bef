// A refusal as it is told: which rule was broken, by its number; which layer found it; and where.
#![tactic(auto)]

ghost use Rattle.std.specs.Prelude.{◌≡◌, ◌++◌, Some, codes, decimal};
ghost use Rattle.refusal.specs.Shown.{layer_name, refusal_line};

use std::fmt;

// Who refused. Memory is no layer of the rules: the machine had no room.
#[derive(Clone, Copy, PartialEq, Eq, Debug, Drop)]
pub enum Layer {
    Reader,
    Typer,
    Bay,
    Board,
    Memory,
}

// The number is what is printed: each error enum says which of its cases has which.
#[derive(Clone, Copy, PartialEq, Eq, Debug, Drop)]
pub struct Refusal {
    pub number: u8,
    pub layer: Layer,
    pub place: usize,
}

impl Layer {
    // The layer as it is printed.
    pub fn name(self) -> &'static str
        ensures { result.now ≡ layer_name self }
    {
        match self {
            Layer::Reader => "reader",
            Layer::Typer => "typer",
            Layer::Bay => "bay",
            Layer::Board => "board",
            Layer::Memory => "memory",
        }
    }
}

impl fmt::Display for Layer {
    ghost output = { λ l. Some (layer_name l) };

    fn fmt<W: fmt::Write>(&self, f: &mut fmt::Formatter<W>) -> fmt::Result {
        f.write_str(self.name())
    }
}

impl fmt::Display for Refusal {
    ghost output = { λ r. Some (refusal_line r) };

    fn fmt<W: fmt::Write>(&self, f: &mut fmt::Formatter<W>) -> fmt::Result {
        let Refusal {
            number,
            layer,
            place,
        } = self;
        write!(f, "refused {number} {layer} {place}")
    }
}
