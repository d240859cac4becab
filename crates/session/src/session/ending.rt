// The end of a session.
ghost use Rattle.std.specs.Prelude.{◌≡◌};
ghost use Rattle.session.specs.Questions.{first_no};
ghost use Rattle.session.specs.State.{end_asked};
ghost use Rattle.session.specs.Ending.{HandedBack};

use super::{Ended, Session};
use crate::token::EndToken;
use sinks::Sink;

impl<'n, S: Sink> Session<'n, S> {
    // Ends the session: winds every standing move back unless all is done, closes the sink and hands
    // it back.
    #[tactic(auto, using(sinks::proofs::Chains::kept_none))]
    pub fn end(mut self, token: EndToken) -> Ended<S>
        ensures answers_first_no { result.answer ≡ first_no (end_asked S.Sink.meaning self.entry) }
        ensures hands_back_closed { HandedBack S.Sink.meaning S.Sink.took S.Sink.shut self.entry.sink result.answer result.sink }
    {
        token.spend();
        let answer = self.ask_end();
        if answer.is_err() {
            self.unwind();
        }
        let Session {
            network: _,
            mut sink,
            ledger: _,
        } = self;
        sink.close();
        Ended { sink, answer }
    }
}
