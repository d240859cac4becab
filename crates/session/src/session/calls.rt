// Opening, and the calls that make moves.
ghost use Rattle.ledger.specs.declared.moves.Move.TheVariants.{Compute, Copy};
ghost use Rattle.session.specs.State.{Opened, Called, release_move, compute_asked, release_asked, copy_asked};

use super::Session;
use crate::token::EndToken;
use ledger::Ledger;
use network::Network;
use refusals::SessionRefusal;
use sinks::Sink;

// Each call that makes a move asks, makes its plan and is done: three lines, no longer than a call of one function for all.
impl<'n, S: Sink> Session<'n, S> {
    // A session with nothing held, and the token that its end takes back. It is never refused.
    pub fn open(network: &'n Network, sink: S) -> (Session<'n, S>, EndToken)
        ensures opens_empty { Opened network.entry sink result.0 }
    {
        let session = Session {
            network,
            sink,
            ledger: Ledger::new(),
        };
        (session, EndToken::new())
    }

    // Computes node i on line l.
    #[tactic(auto, using(crate::proofs::Grants::moved, crate::proofs::Steadiness::steady_none))]
    pub fn compute(&mut self, i: u16, l: u16) -> Result<(), SessionRefusal>
        ensures makes_or_refuses { Called S.Sink.meaning S.Sink.took self.old (Compute i l) (compute_asked S.Sink.meaning self.old i l) result self.new }
    {
        let plan = self.ask_compute(i, l)?;
        self.make(plan);
        Ok(())
    }

    // Releases node i from the line that it is held on.
    #[tactic(auto, using(crate::proofs::Grants::moved, crate::proofs::Steadiness::steady_none))]
    pub fn release(&mut self, i: u16) -> Result<(), SessionRefusal>
        ensures makes_or_refuses { Called S.Sink.meaning S.Sink.took self.old (release_move self.old i) (release_asked S.Sink.meaning self.old i) result self.new }
    {
        let plan = self.ask_release(i)?;
        self.make(plan);
        Ok(())
    }

    // Copies output j onto its line.
    #[tactic(auto, using(crate::proofs::Grants::moved, crate::proofs::Steadiness::steady_none))]
    pub fn copy(&mut self, j: u16) -> Result<(), SessionRefusal>
        ensures makes_or_refuses { Called S.Sink.meaning S.Sink.took self.old (Copy j) (copy_asked S.Sink.meaning self.old j) result self.new }
    {
        let plan = self.ask_copy(j)?;
        self.make(plan);
        Ok(())
    }
}
