ghost use Rattle.std.specs.Prelude.{◌≡◌};
ghost use Rattle.bristol.specs.Gates.{operation_of, gate_over};

use network::Gate;
use refusals::TextRefusal;

// What a gate does.
#[derive(Clone, Copy)]
pub(crate) enum Operation {
    Xor,
    And,
    Inv,
}

// The wires that a gate reads.
#[derive(Clone, Copy)]
pub(crate) enum Operands {
    One(u16),
    Two(u16, u16),
}

// A gate of the text, with the wire that it gives.
#[derive(Clone, Copy)]
pub(crate) struct GateLine {
    pub gate: Gate,
    pub gives: u16,
}

// The operation that a word names.
impl TryFrom<&[u8]> for Operation {
    type Error = TextRefusal;

    ghost try_from_gives = { λ word r. r ≡ operation_of word.now };

    fn try_from(word: &[u8]) -> Result<Operation, TextRefusal> {
        match word {
            b"XOR" => Ok(Operation::Xor),
            b"AND" => Ok(Operation::And),
            b"INV" => Ok(Operation::Inv),
            _ => Err(TextRefusal::GateShape),
        }
    }
}

impl Operation {
    // The gate that does this to the wires that it reads. (`TryFrom` is not to be had for the networks' type.)
    pub(crate) fn over(self, operands: Operands) -> Result<Gate, TextRefusal>
        ensures takes_two_or_one { result ≡ gate_over self operands }
    {
        match (self, operands) {
            (Operation::Xor, Operands::Two(a, b)) => Ok(Gate::Xor(a, b)),
            (Operation::And, Operands::Two(a, b)) => Ok(Gate::And(a, b)),
            (Operation::Inv, Operands::One(a)) => Ok(Gate::Inv(a)),
            _ => Err(TextRefusal::GateShape),
        }
    }
}
