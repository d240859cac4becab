// The calls of a compile, in their order.
ghost use Rattle.session.specs.State.{Steady};

use super::Session;
use refusals::SessionRefusal;
use sinks::Sink;

impl<'n, S: Sink> Session<'n, S> {
    // Computes each node, ascending, on the ancilla of its number, copies each output, ascending, and
    // releases each node, descending; up to the first refused call.
    #[tactic(auto, using(crate::proofs::Steadiness::steady_none, crate::proofs::Steadiness::steady_twice))]
    pub(crate) fn make_all(&mut self) -> Result<(), SessionRefusal>
        ensures keeps_network_and_only_adds_gates { Steady S.Sink.meaning S.Sink.took self.old self.new }
    {
        let first_ancilla = self.first_ancilla();
        let nodes = self.network.nodes();
        for i in 0..nodes {
            self.compute(i, first_ancilla + i)?;
        }
        for j in 0..self.network.outputs() {
            self.copy(j)?;
        }
        for i in (0..nodes).rev() {
            self.release(i)?;
        }
        Ok(())
    }
}
