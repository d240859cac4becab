// The ledger of a session: the moves that stand, and what is held after them.
#![tactic(auto)]

mod ledger;
mod moves;

pub use ledger::{Ledger, Lines};
pub use moves::Move;
