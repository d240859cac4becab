ghost use Rattle.std.specs.Prelude.{◌≡◌, IfOk};
ghost use Rattle.std.specs.Option.{ok_or};
ghost use Rattle.network.specs.Drafts.{drafted};
ghost use Rattle.network.specs.Networks.{sealed};
ghost use Rattle.bristol.specs.Answers.{Answered, Left};
ghost use Rattle.bristol.specs.Building.{building, opened, added, marked, finished};
ghost use Rattle.bristol.specs.Wires.{given_at, open_at, inputs_given, resolved_gate};
ghost use Rattle.refusals.specs.declared.text.TextRefusal.TheVariants.{Wiring};

use crate::gate::GateLine;
use network::{Draft, Gate, Network};
use refusals::{DraftRefusal, TextRefusal};
use std::alloc::{AllocError, Global};

// A draft under way, and for each wire of the text, 0 to the last (so a vector, and no map), the draft's wire, once it is
// given.
#[derive(Drop)]
pub(crate) struct Builder {
    draft: Draft,
    wires: Vec<Option<u16>>,
}

// The wires of a text of which only the inputs are given.
fn input_wires(heap: Global, inputs: u16, wires: u16) -> Result<Vec<Option<u16>>, AllocError>
    ensures gives_the_inputs_alone { IfOk result (λ v. v.items ≡ inputs_given inputs wires) }
{
    (0..wires).map(|w| (w < inputs).then_some(w)).collect(heap)
}

// Marks the given wires as outputs, in their order.
fn mark(draft: &mut Draft, wires: &[Option<u16>]) -> Result<(), TextRefusal>
    ensures marks_each { Left result (drafted draft.new) (marked (drafted draft.old) wires.now) }
{
    for wire in wires {
        // A text's wires are all given when its gates are read, since each gate gave another.
        let w = wire.ok_or(TextRefusal::Wiring)?;
        draft.output(w)?;
    }
    Ok(())
}

impl Builder {
    // A builder with the inputs alone.
    pub(crate) fn new(heap: Global, inputs: u16, wires: u16) -> Result<Builder, TextRefusal>
        ensures opens_with_the_inputs { Answered building result (opened inputs wires) }
    {
        let draft = Draft::new(heap, inputs)?;
        let wires = input_wires(heap, inputs, wires)?;
        Ok(Builder { draft, wires })
    }

    // The draft's wire for a wire of the text that is given.
    fn wire(&self, w: u16) -> Result<u16, TextRefusal>
        ensures is_the_wire_given { result ≡ ok_or (given_at self.now.wires.items w) Wiring }
    {
        self.wires
            .get(usize::from(w))
            .copied()
            .flatten()
            .ok_or(TextRefusal::Wiring)
    }

    // A gate of the text, over the draft's wires.
    fn resolved(&self, gate: Gate) -> Result<Gate, TextRefusal>
        ensures reads_wires_that_are_given { result ≡ resolved_gate self.now.wires.items gate }
    {
        match gate {
            Gate::Xor(a, b) => Ok(Gate::Xor(self.wire(a)?, self.wire(b)?)),
            Gate::And(a, b) => Ok(Gate::And(self.wire(a)?, self.wire(b)?)),
            Gate::Inv(a) => Ok(Gate::Inv(self.wire(a)?)),
        }
    }

    // Adds a gate of the text.
    pub(crate) fn add(&mut self, line: GateLine) -> Result<(), TextRefusal>
        ensures adds_the_gate { Left result (building self.new) (added (building self.old) line) }
    {
        let gate = self.resolved(line.gate)?;
        let Some(open @ None) = self.wires.get_mut(usize::from(line.gives)) else {
            return Err(TextRefusal::Wiring);
        };
        *open = Some(self.draft.add(gate)?);
        Ok(())
    }

    // The network whose outputs are the text's last `outputs` wires.
    pub(crate) fn finish(self, outputs: u16) -> Result<Network, TextRefusal>
        ensures seals_with_the_last_wires_as_outputs { Answered sealed result (finished outputs (building self)) }
    {
        let Builder { mut draft, wires } = self;
        let first = wires.len().saturating_sub(usize::from(outputs));
        mark(&mut draft, &wires[first..])?;
        draft
            .seal()
            .map_err(|_| TextRefusal::Draft(DraftRefusal::NoOutput))
    }
}
