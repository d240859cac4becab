ghost use Rattle.refusals.specs.Offers.{number, number_tells};

use crate::refusal::Refusal;

// Why a gate was not taken.
#[derive(Clone, Copy, PartialEq, Eq, Debug)]
pub enum OfferRefusal {
    // A line of the gate is not below the sink's width.
    LineOutside,
    // Two lines of the gate are the same.
    LinesRepeat,
    // The sink has no free place.
    NoPlace,
}

impl Refusal for OfferRefusal {
    ghost numbered = { number };

    ghost numbers_differ = { number_tells };

    fn number(self) -> u8 {
        match self {
            Self::LineOutside => 7,
            Self::LinesRepeat => 8,
            Self::NoPlace => 9,
        }
    }
}
