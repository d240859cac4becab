// Why a session's call is refused.
ghost use Rattle.refusals.specs.Sessions.{number, number_tells};

use crate::refusal::Refusal;

#[derive(Clone, Copy, PartialEq, Eq, Debug)]
pub enum SessionRefusal {
    // The sink has too few places for the move and for winding everything back.
    NoPlaces,
    // The sink's width does not hold the inputs and outputs, or is over 320.
    Width,
    NoSuchNode,
    NodeHeld,
    // A node in the form is not held.
    OperandNotHeld,
    // The line is no ancilla, or a node is held on it.
    LineNotFree,
    // 1,024 moves stand.
    LogFull,
    NodeNotHeld,
    NoSuchOutput,
    // The session ends while a node is held.
    StillHeld,
    // The session ends while an output has an even number of copies.
    EvenCopies,
}

impl Refusal for SessionRefusal {
    ghost numbered = { number };

    ghost numbers_differ = { number_tells };

    fn number(self) -> u8 {
        match self {
            Self::NoPlaces => 9,
            Self::Width => 13,
            Self::NoSuchNode => 14,
            Self::NodeHeld => 15,
            Self::OperandNotHeld => 16,
            Self::LineNotFree => 17,
            Self::LogFull => 18,
            Self::NodeNotHeld => 19,
            Self::NoSuchOutput => 20,
            Self::StillHeld => 22,
            Self::EvenCopies => 23,
        }
    }
}
