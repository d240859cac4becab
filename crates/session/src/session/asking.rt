// The questions of a session's calls.
ghost use Rattle.std.specs.Prelude.{◌≡◌, ◌+◌, ◌<◌, ◌≤◌, true, [], ◌∷◌, OnOk};
ghost use Rattle.network.specs.Wires.{node_shape, output_count};
ghost use Rattle.moves.specs.Spelling.{known};
ghost use Rattle.ledger.specs.Ledgers.{standing};
ghost use Rattle.ledger.specs.declared.moves.Move.TheVariants.{Compute, Copy};
ghost use Rattle.refusals.specs.declared.session.SessionRefusal.TheVariants.{Width};
ghost use Rattle.session.specs.Granted.{Granted};
ghost use Rattle.session.specs.Questions.{ask, width_fits, operands_held, free_ancilla, room_questions, first_no};
ghost use Rattle.session.specs.State.{net_of, release_move, room_asked, compute_asked, release_asked, copy_asked, end_asked};

use super::{Plan, Session};
use ledger::Move;
use moves::Spelling;
use network::Node;
use refusals::SessionRefusal;
use sinks::Sink;

// A question, with the refusal of its no.
fn ask(holds: bool, refusal: SessionRefusal) -> Result<(), SessionRefusal>
    ensures answers { result ≡ first_no (ask holds refusal ∷ []) }
{
    if holds { Ok(()) } else { Err(refusal) }
}

impl<'n, S: Sink> Session<'n, S> {
    // The line after the inputs' and the outputs'.
    pub(super) fn first_ancilla(&self) -> u16
        ensures comes_after_the_outputs { result ≡ (net_of self.now).inputs + output_count (net_of self.now) }
    {
        self.network.inputs() + self.network.outputs()
    }

    // Whether the width holds the inputs and outputs, and is at most 320.
    fn ask_width(&self) -> Result<(), SessionRefusal>
        ensures answers { result ≡ first_no (ask (width_fits (net_of self.now) (S.Sink.meaning self.now.sink).width) Width ∷ []) }
    {
        let width = self.sink.width();
        ask(
            self.first_ancilla() <= width && width <= 320,
            SessionRefusal::Width,
        )
    }

    // Whether the nodes in both forms of a node are held.
    fn operands_held(&self, node: &Node) -> bool
        ensures says_held { result ≡ operands_held (net_of self.now) self.now.ledger.held (node_shape node.now) }
    {
        let lines = self.ledger.lines(self.network.inputs());
        lines.all_ready(node.first.elements()) && lines.all_ready(node.second.elements())
    }

    // Whether a line is an ancilla on which no node is held.
    fn is_free_ancilla(&self, line: u16) -> bool
        ensures says_free { result ≡ free_ancilla (net_of self.now) (S.Sink.meaning self.now.sink).width self.now.ledger.held line }
    {
        self.first_ancilla() <= line && line < self.sink.width() && self.ledger.is_free(line)
    }

    // Whether the log takes one more move, of so many gates, and the sink takes them, their undoing and
    // that of all that stands.
    fn ask_room(&self, cost: u64) -> Result<(), SessionRefusal>
        requires { cost ≤ 1025 }
        ensures has_room { OnOk result ((standing self.now.ledger < 1024) × (cost ≤ (S.Sink.meaning self.now.sink).free)) }
        ensures answers_first_no { result ≡ first_no (room_questions self.now.ledger (S.Sink.meaning self.now.sink).free cost) }
    {
        ask(self.ledger.standing() < 1024, SessionRefusal::LogFull)?;
        let left = self.sink.free().checked_sub(self.ledger.undo_cost());
        ask(
            left.is_some_and(|left| 2 * cost <= left),
            SessionRefusal::NoPlaces,
        )
    }

    // The gates of a move that the network knows, where there is room for it.
    fn plan(&self, made: Move) -> Result<Plan, SessionRefusal>
        requires { known (net_of self.now) made ≡ true }
        ensures grants_or_answers_first_no { Granted S.Sink.meaning self.now made (room_asked S.Sink.meaning self.now made) result }
    {
        let gates = Spelling::of(self.network, &self.ledger, made);
        self.ask_room(gates.cost())?;
        Ok(Plan { made, gates })
    }

    pub(super) fn ask_compute(&self, i: u16, l: u16) -> Result<Plan, SessionRefusal>
        ensures grants_or_answers_first_no { Granted S.Sink.meaning self.now (Compute i l) (compute_asked S.Sink.meaning self.now i l) result }
    {
        self.ask_width()?;
        let node = self.network.node(i).ok_or(SessionRefusal::NoSuchNode)?;
        ask(self.ledger.held(i).is_none(), SessionRefusal::NodeHeld)?;
        ask(self.operands_held(node), SessionRefusal::OperandNotHeld)?;
        ask(self.is_free_ancilla(l), SessionRefusal::LineNotFree)?;
        self.plan(Move::Compute { node: i, line: l })
    }

    pub(super) fn ask_release(&self, i: u16) -> Result<Plan, SessionRefusal>
        ensures grants_or_answers_first_no { Granted S.Sink.meaning self.now (release_move self.now i) (release_asked S.Sink.meaning self.now i) result }
    {
        self.ask_width()?;
        let node = self.network.node(i).ok_or(SessionRefusal::NoSuchNode)?;
        let line = self.ledger.held(i).ok_or(SessionRefusal::NodeNotHeld)?;
        ask(self.operands_held(node), SessionRefusal::OperandNotHeld)?;
        self.plan(Move::Release { node: i, line })
    }

    pub(super) fn ask_copy(&self, j: u16) -> Result<Plan, SessionRefusal>
        ensures grants_or_answers_first_no { Granted S.Sink.meaning self.now (Copy j) (copy_asked S.Sink.meaning self.now j) result }
    {
        self.ask_width()?;
        let form = self.network.output(j).ok_or(SessionRefusal::NoSuchOutput)?;
        let lines = self.ledger.lines(self.network.inputs());
        ask(
            lines.all_ready(form.elements()),
            SessionRefusal::OperandNotHeld,
        )?;
        self.plan(Move::Copy { output: j })
    }

    pub(super) fn ask_end(&self) -> Result<(), SessionRefusal>
        ensures answers_first_no { result ≡ first_no (end_asked S.Sink.meaning self.now) }
    {
        self.ask_width()?;
        ask(!self.ledger.any_held(), SessionRefusal::StillHeld)?;
        ask(
            self.ledger.all_odd(self.network.outputs()),
            SessionRefusal::EvenCopies,
        )
    }
}
