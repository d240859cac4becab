// Where a move's gates are put, and where the values of basis elements stand.
use arrayvec::ArrayVec;
use circuit::Gate;
use ledger::Lines;

mod ops;

// Up to 512 gates. No move spells more around its core: its two sets have at most 255 elements each,
// two of them carriers, and two nots follow. A session keeps its gates in the value itself and not
// on the heap, so that it can wind back when there is no memory to be had.
pub(crate) type Gates = ArrayVec<Gate, 512>;

#[derive(Drop)]
pub(crate) struct Speller<'l> {
    pub(crate) gates: Gates,
    pub(crate) lines: Lines<'l>,
}
