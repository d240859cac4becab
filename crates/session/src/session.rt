// A network being compiled into a sink, and what the session holds.
use ledger::{Ledger, Move};
use moves::Spelling;
use network::Network;
use refusals::SessionRefusal;
use sinks::Sink;

mod asking;
mod calls;
mod ending;
mod making;
mod schedule;

pub struct Session<'n, S: Sink> {
    network: &'n Network,
    sink: S,
    ledger: Ledger,
}

// A move that the questions grant, with its gates.
#[derive(Drop)]
struct Plan {
    made: Move,
    gates: Spelling,
}

// What a session's end hands back: the sink, closed, and the answer.
pub struct Ended<S: Sink> {
    pub sink: S,
    pub answer: Result<(), SessionRefusal>,
}
