// Moves made, and taken back.
ghost use Rattle.std.specs.Prelude.{◌≡◌, ◌<◌, length};
ghost use Rattle.ledger.specs.Ledgers.{standing, Noted};
ghost use Rattle.moves.specs.Spelled.{spelled};
ghost use Rattle.sinks.specs.Sending.{Taken};
ghost use Rattle.session.specs.State.{Steady};

use super::{Plan, Session};
use crate::sending::{send_move, send_move_undone};
use ledger::Move;
use moves::Spelling;
use sinks::Sink;

// `Steady` ties what a call leaves to what it found: no fact of one session, so each call says it.
impl<'n, S: Sink> Session<'n, S> {
    // Sends a move's gates, and puts it last into the log.
    pub(super) fn make(&mut self, plan: Plan)
        ensures keeps_network_and_only_adds_gates { Steady S.Sink.meaning S.Sink.took self.old self.new }
        ensures notes_the_move { standing self.old.ledger < 1024 → Noted self.old.ledger plan.made (length (spelled plan.gates)) self.new.ledger }
        ensures all_taken_in_order { Taken S.Sink.meaning S.Sink.took self.old.sink (spelled plan.gates) self.new.sink }
    {
        send_move(&mut self.sink, &plan.gates);
        self.ledger.note(plan.made, plan.gates.cost());
    }

    // Sends the gates that undo a move which was taken off the log, on the lines that its operands
    // were held on before it.
    fn unmake(&mut self, made: Move)
        ensures keeps_network_and_only_adds_gates { Steady S.Sink.meaning S.Sink.took self.old self.new }
        ensures as_many_stand { standing self.new.ledger ≡ standing self.old.ledger }
    {
        let gates = Spelling::of(self.network, &self.ledger, made);
        self.ledger.undone(gates.cost());
        send_move_undone(&mut self.sink, &gates);
    }

    // Takes every standing move back, the last first.
    #[tactic(auto, using(crate::proofs::Steadiness::steady_none, crate::proofs::Steadiness::steady_twice))]
    pub(super) fn unwind(&mut self)
        ensures keeps_network_and_only_adds_gates { Steady S.Sink.meaning S.Sink.took self.old self.new }
        ensures nothing_stands { standing self.new.ledger ≡ 0 }
    {
        while let Some(made) = self.ledger.take_back() {
            self.unmake(made);
        }
    }
}
