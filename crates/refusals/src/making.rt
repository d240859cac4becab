ghost use Rattle.refusals.specs.Making.{number, number_tells};

use crate::refusal::Refusal;

// Why a record cannot be made.
#[derive(Clone, Copy, PartialEq, Eq, Debug)]
pub enum MakeRefusal {
    // The width is not from 1 to 320.
    Width,
    // The buffer does not have from 12 to 524,292 bytes.
    Size,
}

impl Refusal for MakeRefusal {
    ghost numbered = { number };

    ghost numbers_differ = { number_tells };

    fn number(self) -> u8 {
        match self {
            Self::Width => 10,
            Self::Size => 11,
        }
    }
}
