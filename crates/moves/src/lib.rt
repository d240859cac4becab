// The gates that each move of a session spells.
#![tactic(auto)]

mod carriers;
mod speller;
mod spelling;

pub use spelling::Spelling;
