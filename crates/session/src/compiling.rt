// A whole network compiled into a sink.
ghost use Rattle.session.specs.Ending.{ClosedFull};

use crate::session::{Ended, Session};
use network::Network;
use sinks::Sink;

// Computes the nodes ascending, node i on line n + m + i, copies the outputs ascending, releases the
// nodes descending, and ends. At the first refused call it ends there and answers that refusal.
pub fn compile<S: Sink>(network: &Network, sink: S) -> Ended<S>
    ensures hands_back_closed { ClosedFull S.Sink.meaning S.Sink.took S.Sink.shut sink result.sink }
{
    let (mut session, token) = Session::open(network, sink);
    let made = session.make_all();
    let Ended { sink, answer } = session.end(token);
    Ended {
        sink,
        answer: made.and(answer),
    }
}
