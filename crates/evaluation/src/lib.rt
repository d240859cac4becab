// The value of a network at given inputs.
#![tactic(auto)]

mod chain;
mod words;

pub use chain::evaluate;
pub use words::evaluate_word;
