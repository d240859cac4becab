ghost use Rattle.refusals.specs.Lookups.{number, number_tells};

use crate::refusal::Refusal;

// Why a table has no image to show.
#[derive(Clone, Copy, PartialEq, Eq, Debug)]
pub enum LookupRefusal {
    // The state is not below 2^W.
    StateOutside,
}

impl Refusal for LookupRefusal {
    ghost numbered = { number };

    ghost numbers_differ = { number_tells };

    fn number(self) -> u8 {
        match self {
            Self::StateOutside => 12,
        }
    }
}
