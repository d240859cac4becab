// The gates of a move: with a core, the gates around it, the core, and the gates around it undone;
// with none, the gates alone.
use crate::speller::Gates;
use circuit::Gate;

mod ops;

#[derive(Drop)]
pub struct Spelling {
    around: Gates,
    core: Option<Gate>,
}
