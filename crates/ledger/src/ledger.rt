// What a session holds and what stands: its log of moves, oldest first, the line of each held node,
// which outputs have an odd number of standing copies, and the number of gates that winding all back takes.
ghost use Rattle.std.specs.Prelude.{◌≤◌};

use crate::moves::Move;

mod lines;
mod ops;

pub use lines::Lines;

#[derive(Drop)]
pub struct Ledger {
    // No Vec and no map, since a session takes no heap; and the log's form is fixed, an array filled by repetition.
    log: [Move; 1024],
    standing: usize,
    held: [Option<u16>; 192],
    odd: [bool; 64],
    undo: u64,
    ghost few: { standing ≤ 1024 },
}
