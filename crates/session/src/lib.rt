// Sessions: a network compiled move by move into a sink.
#![tactic(auto)]

mod compiling;
mod sending;
mod session;
mod token;

pub use compiling::compile;
pub use session::{Ended, Session};
pub use token::EndToken;
