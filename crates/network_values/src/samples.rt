// Networks to evaluate.
use network::{Draft, Network};
use refusals::DraftRefusal;
use std::alloc::Global;

pub(crate) fn sealed(draft: Draft) -> Result<Network, DraftRefusal> {
    draft.seal().map_err(|_| DraftRefusal::NoOutput)
}

// (x0 XOR x1) AND x2
pub(crate) fn xor_and(heap: Global) -> Result<Network, DraftRefusal> {
    let mut draft = Draft::new(heap, 3)?;
    let sum = draft.xor(0, 1)?;
    let product = draft.and(sum, 2)?;
    draft.output(product)?;
    sealed(draft)
}

// n inputs, each of them an output.
pub(crate) fn identity(heap: Global, n: u16) -> Result<Network, DraftRefusal> {
    let mut draft = Draft::new(heap, n)?;
    for i in 0..n {
        draft.output(i)?;
    }
    sealed(draft)
}

// n inputs, the complement of the last one the only output.
pub(crate) fn last_inverted(heap: Global, n: u16) -> Result<Network, DraftRefusal> {
    let mut draft = Draft::new(heap, n)?;
    let inverse = draft.inv(n.saturating_sub(1))?;
    draft.output(inverse)?;
    sealed(draft)
}
