ghost use Rattle.std.specs.Prelude.{◌≡◌};
ghost use Rattle.refusals.specs.Drafts.{number, number_tells};
ghost use Rattle.refusals.specs.declared.draft.DraftRefusal.TheVariants.{OutOfMemory};

use crate::refusal::Refusal;
use std::alloc::{AllocError, AllocFailed};

// Why a call on a draft is refused.
#[derive(Clone, Copy, Debug, PartialEq, Eq)]
pub enum DraftRefusal {
    // The number of inputs is not from 1 to 64.
    Inputs,
    // There are 1,024 wires.
    WireLimit,
    // A wire that is named does not exist.
    NoSuchWire,
    // A node is due, and there are 192 nodes.
    NodeLimit,
    // There are 64 outputs.
    OutputLimit,
    // There is no output.
    NoOutput,
    // There is no memory; no rule refuses the call.
    OutOfMemory,
}

impl Refusal for DraftRefusal {
    ghost numbered = { number };

    ghost numbers_differ = { number_tells };

    fn number(self) -> u8 {
        match self {
            Self::Inputs => 1,
            Self::WireLimit => 2,
            Self::NoSuchWire => 3,
            Self::NodeLimit => 4,
            Self::OutputLimit => 5,
            Self::NoOutput => 6,
            Self::OutOfMemory => 0,
        }
    }
}

impl From<AllocError> for DraftRefusal {
    ghost from_gives = { λ _ r. r ≡ OutOfMemory };

    fn from(_error: AllocError) -> DraftRefusal {
        DraftRefusal::OutOfMemory
    }
}

// `?` meets both errors of an allocation, and no one `impl` covers both types.
impl<T: Drop> From<AllocFailed<T>> for DraftRefusal {
    ghost from_gives = { λ _ r. r ≡ OutOfMemory };

    fn from(_refused: AllocFailed<T>) -> DraftRefusal {
        DraftRefusal::from(AllocError)
    }
}
