// The tokens of a text, parted by space, tab, CR and LF.
#![tactic(auto)]

mod scanner;
mod token;

pub use scanner::Scanner;
pub use token::{Token, number};
