// Why a filling is refused.
ghost use Rattle.std.specs.Prelude.{◌≡◌};
ghost use Rattle.bay.specs.Filling.{refused};

use refusal::{Layer, Refusal};

#[derive(Clone, Copy, PartialEq, Eq, Debug)]
pub enum BayFault {
    // a store above 7, a count above 9,999 or more than 32 serial numbers; holds the store
    Over(u8),
}

// The fault by its number, layer and place.
impl From<BayFault> for Refusal {
    ghost from_gives = { λ e r. r ≡ refused e };

    fn from(e: BayFault) -> Refusal {
        match e {
            BayFault::Over(store) => Refusal {
                number: 17,
                layer: Layer::Bay,
                place: usize::from(store),
            },
        }
    }
}
