ghost use Rattle.refusals.specs.Reading.{number, number_tells};

use crate::refusal::Refusal;

// Why bytes do not end with a record.
#[derive(Clone, Copy, PartialEq, Eq, Debug)]
pub enum ReadRefusal {
    // There are fewer than 12 bytes.
    Short,
    // The last 12 bytes are no trailer of a record within these bytes.
    Trailer,
    // Eight bytes are not those of a gate whose lines lie below the width and differ.
    GateForm,
    // The trailer's T-count is not that of the gates.
    TCount,
}

impl Refusal for ReadRefusal {
    ghost numbered = { number };

    ghost numbers_differ = { number_tells };

    fn number(self) -> u8 {
        match self {
            Self::Short => 26,
            Self::Trailer => 27,
            Self::GateForm => 28,
            Self::TCount => 29,
        }
    }
}
