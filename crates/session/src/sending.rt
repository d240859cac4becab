// Gates offered to a sink one after the other. `Kept` ties what a function leaves to what it found: no fact of one sink, so
// each says it.
ghost use Rattle.std.specs.Prelude.{◌≡◌, Some, Ok};
ghost use Rattle.std.specs.Iterator.{IsFinite};
ghost use Rattle.std.specs.Iterator.Runs.{WholeRun};
ghost use Rattle.sinks.specs.Meaning.{answer};
ghost use Rattle.sinks.specs.Sending.{Kept, Taken};
ghost use Rattle.moves.specs.Fans.{undone, joined};
ghost use Rattle.moves.specs.Spelled.{spelled};

use circuit::Gate;
use moves::Spelling;
use sinks::Sink;

// Offers one gate.
fn send<S: Sink>(sink: &mut S, g: Gate)
    ensures only_adds_gates { Kept S.Sink.meaning S.Sink.took sink.old sink.new }
    ensures taken_if_fit { answer g (S.Sink.meaning sink.old) ≡ Ok tt → S.Sink.took sink.old g sink.new }
{
    let _ = sink.offer(g);
}

// Offers each gate in order.
#[tactic(auto, using(sinks::proofs::Chains::kept_none, sinks::proofs::Chains::taken_none))]
fn send_all<S: Sink, I: Iterator<Item = Gate> + Drop>(sink: &mut S, gates: I)
    requires can { I.can_next gates }
    requires ends { IsFinite (I.remaining gates) }
    ensures only_adds_gates { Kept S.Sink.meaning S.Sink.took sink.old sink.new }
    ensures all_taken_in_order { WholeRun I.next_gives gates (λ p. Taken S.Sink.meaning S.Sink.took sink.old p.items sink.new) }
{
    for g in gates {
        send(sink, g);
    }
}

// Offers the inverse of each gate, the last first.
fn send_undone<S: Sink>(sink: &mut S, gates: &[Gate])
    ensures only_adds_gates { Kept S.Sink.meaning S.Sink.took sink.old sink.new }
    ensures all_undone_in_order { Taken S.Sink.meaning S.Sink.took sink.old (undone gates.now) sink.new }
{
    send_all(sink, gates.iter().rev().map(|g| g.inverse()));
}

// Offers the gates, one gate, and the gates undone.
#[tactic(auto, using(sinks::proofs::Chains::kept_twice))]
fn send_conjugated<S: Sink>(sink: &mut S, around: &[Gate], core: Gate)
    ensures only_adds_gates { Kept S.Sink.meaning S.Sink.took sink.old sink.new }
    ensures all_taken_in_order { Taken S.Sink.meaning S.Sink.took sink.old (joined around.now (Some core)) sink.new }
{
    send_all(sink, around.iter().copied());
    send(sink, core);
    send_undone(sink, around);
}

// Offers the gates of a move.
pub(crate) fn send_move<S: Sink>(sink: &mut S, gates: &Spelling)
    ensures only_adds_gates { Kept S.Sink.meaning S.Sink.took sink.old sink.new }
    ensures all_taken_in_order { Taken S.Sink.meaning S.Sink.took sink.old (spelled gates.now) sink.new }
{
    match gates.core() {
        Some(core) => send_conjugated(sink, gates.around(), core),
        None => send_all(sink, gates.around().iter().copied()),
    }
}

// Offers the gates that undo a move. A match beside that of `send_move`: over one chain for both directions the
// proof of the items that it yields did not close.
#[tactic(auto, using(moves::proofs::Undoing::undone_around))]
pub(crate) fn send_move_undone<S: Sink>(sink: &mut S, gates: &Spelling)
    ensures only_adds_gates { Kept S.Sink.meaning S.Sink.took sink.old sink.new }
    ensures all_undone_in_order { Taken S.Sink.meaning S.Sink.took sink.old (undone (spelled gates.now)) sink.new }
{
    match gates.core() {
        Some(core) => send_conjugated(sink, gates.around(), core.inverse()),
        None => send_undone(sink, gates.around()),
    }
}
