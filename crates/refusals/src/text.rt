ghost use Rattle.std.specs.Prelude.{◌≡◌};
ghost use Rattle.refusals.specs.declared.draft.DraftRefusal.TheVariants.{OutOfMemory};
ghost use Rattle.refusals.specs.Texts.{number as its_number, number_tells};
ghost use Rattle.refusals.specs.declared.text.TextRefusal.TheVariants.{Draft};

use crate::draft::DraftRefusal;
use crate::refusal::Refusal;
use std::alloc::{AllocError, AllocFailed};

// Why a text gives no network.
#[derive(Clone, Copy, Debug, PartialEq, Eq)]
pub enum TextRefusal {
    // The text has more than 65,536 bytes.
    TooLong,
    // A number or an operation is missing, or a token is left at the end.
    Malformed,
    // The header's numbers do not fit each other or the limits.
    Header,
    // The counts of a gate, or its operation, are none of the three gates'.
    GateShape,
    // A gate reads a wire that is not yet given, or gives one that it may not.
    Wiring,
    // The draft refuses a gate, or memory is wanting.
    Draft(DraftRefusal),
}

impl Refusal for TextRefusal {
    ghost numbered = { its_number };

    ghost numbers_differ = { number_tells };

    fn number(self) -> u8 {
        match self {
            Self::TooLong => 30,
            Self::Malformed => 31,
            Self::Header => 32,
            Self::GateShape => 33,
            Self::Wiring => 34,
            Self::Draft(e) => e.number(),
        }
    }
}

impl From<DraftRefusal> for TextRefusal {
    ghost from_gives = { λ e r. r ≡ Draft e };

    fn from(refusal: DraftRefusal) -> TextRefusal {
        TextRefusal::Draft(refusal)
    }
}

impl From<AllocError> for TextRefusal {
    ghost from_gives = { λ _ r. r ≡ Draft OutOfMemory };

    fn from(_error: AllocError) -> TextRefusal {
        TextRefusal::Draft(DraftRefusal::OutOfMemory)
    }
}

// `?` meets both errors of an allocation, and no one `impl` covers both types.
impl<T: Drop> From<AllocFailed<T>> for TextRefusal {
    ghost from_gives = { λ _ r. r ≡ Draft OutOfMemory };

    fn from(_refused: AllocFailed<T>) -> TextRefusal {
        TextRefusal::from(AllocError)
    }
}
