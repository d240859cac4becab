ghost use Rattle.std.specs.Prelude.{◌≡◌, ◌+◌, ◌<◌, ◌≤◌, true, cond, is_some, IfOk, MatchOption, MatchResult};
ghost use Rattle.std.specs.Option.{option_map};
ghost use Rattle.form.specs.Shapes.{shape, zero_form, element_form};
ghost use Rattle.network.specs.Wires.{wire_shape, form_at, and_form, add, with_wire, with_node, wire_count, node_count, output_count, input_wire};
ghost use Rattle.network.specs.Drafts.{drafted, Passed, Appended, Added, Opened, Marked, Sealable};
ghost use Rattle.network.specs.Networks.{Finished};
ghost use Rattle.refusals.specs.declared.draft.DraftRefusal.TheVariants.{NoSuchWire};

use super::Draft;
use crate::lists::{count, item};
use crate::network::Network;
use crate::wire::{Gate, Node, Step, Wire};
use form::Form;
use refusals::DraftRefusal;
use std::alloc::{AllocError, Global};

// The form of a constant times a form.
fn times(constant: bool, form: &Form, heap: Global) -> Result<Form, AllocError>
    ensures is_product { IfOk result (λ f. shape f ≡ cond constant (shape form.now) zero_form) }
{
    if constant {
        form.clone()
    } else {
        Ok(Form::zero(heap))
    }
}

// The form of an AND of two forms, or none where it takes a node.
fn and_form(a: &Form, b: &Form, heap: Global) -> Result<Option<Form>, AllocError>
    ensures is_and_form { MatchResult result (λ o. option_map shape o ≡ and_form (shape a.now) (shape b.now)) (λ _. is_some (and_form (shape a.now) (shape b.now)) ≡ true) }
{
    if a.is_empty() {
        Ok(Some(times(a.constant(), b, heap)?))
    } else if b.is_empty() {
        Ok(Some(times(b.constant(), a, heap)?))
    } else if a.same_set(b) {
        Ok(Some(times(a.constant() == b.constant(), a, heap)?))
    } else {
        Ok(None)
    }
}

// The wire of input i.
fn input_wire(heap: Global, i: u16) -> Result<Wire, AllocError>
    ensures is_the_input { IfOk result (λ w. wire_shape w ≡ input_wire i) }
{
    Ok(Wire {
        step: Step::Input,
        form: Form::element(heap, i)?,
    })
}

impl Draft {
    // A draft of n inputs, from 1 to 64.
    pub fn new(heap: Global, n: u16) -> Result<Draft, DraftRefusal>
        ensures opens_or_answers_first_no { Opened n result }
    {
        if !(1..=64).contains(&n) {
            return Err(DraftRefusal::Inputs);
        }
        let mut wires = Vec::new(heap);
        for i in 0..n {
            wires.push(input_wire(heap, i)?)?;
        }
        Ok(Draft {
            heap,
            inputs: n,
            wires,
            nodes: Vec::new(heap),
            outputs: Vec::new(heap),
        })
    }

    // How many inputs there are.
    pub fn inputs(&self) -> u16
        ensures is_the_number_of_inputs { result ≡ (drafted self.now).inputs }
    {
        self.inputs
    }

    // How many wires there are.
    pub fn wires(&self) -> u16
        ensures is_the_number_of_wires { result ≡ wire_count (drafted self.now) }
    {
        count(&self.wires)
    }

    // How many nodes there are.
    pub fn nodes(&self) -> u16
        ensures is_the_number_of_nodes { result ≡ node_count (drafted self.now) }
    {
        count(&self.nodes)
    }

    // How many outputs there are.
    pub fn outputs(&self) -> u16
        ensures is_the_number_of_outputs { result ≡ output_count (drafted self.now) }
    {
        count(&self.outputs)
    }

    // The form of wire i, where there is one.
    pub(crate) fn form(&self, i: u16) -> Option<&Form>
        ensures is_form_of_wire_i { MatchOption result (wire_count (drafted self.now) ≤ i) (λ f. (i < wire_count (drafted self.now)) × (shape f.now ≡ form_at (drafted self.now).body i)) }
    {
        item(&self.wires, i).map(|wire| &wire.form)
    }

    // The form of a wire that a gate reads.
    fn operand(&self, i: u16) -> Result<&Form, DraftRefusal>
        ensures is_form_of_wire_i { MatchResult result (λ f. (i < wire_count (drafted self.now)) × (shape f.now ≡ form_at (drafted self.now).body i)) (λ e. (wire_count (drafted self.now) ≤ i) × (e ≡ NoSuchWire)) }
    {
        self.form(i).ok_or(DraftRefusal::NoSuchWire)
    }

    // Adds a wire whose form is known.
    fn append(&mut self, gate: Gate, form: Form) -> Result<u16, DraftRefusal>
        requires passed { Passed (drafted self.old) (Step.Gate gate) }
        requires right { add self.old.inputs (drafted self.old).body (Step.Gate gate) ≡ with_wire (drafted self.old).body (Step.Gate gate) (shape form) }
        ensures appends_unless_out_of_memory { Appended (drafted self.old) (Step.Gate gate) result (drafted self.new) }
    {
        let at = self.wires();
        let step = Step::Gate(gate);
        self.wires.push(Wire { step, form })?;
        Ok(at)
    }

    // Adds a wire that takes a new node.
    fn append_node(&mut self, gate: Gate, node: Node) -> Result<u16, DraftRefusal>
        requires passed { Passed (drafted self.old) (Step.Gate gate) }
        requires room { node_count (drafted self.old) < 192 }
        requires right { add self.old.inputs (drafted self.old).body (Step.Gate gate) ≡ with_wire (with_node (drafted self.old).body (shape node.first) (shape node.second)) (Step.Gate gate) (element_form (self.old.inputs + node_count (drafted self.old))) }
        ensures appends_unless_out_of_memory { Appended (drafted self.old) (Step.Gate gate) result (drafted self.new) }
    {
        let at = self.wires();
        let step = Step::Gate(gate);
        let form = Form::element(self.heap, self.inputs + self.nodes())?;
        self.wires.reserve(1)?;
        self.nodes.push(node)?;
        self.wires.push_reserved(Wire { step, form });
        Ok(at)
    }

    // Adds the wire of a gate, and answers its number.
    pub fn add(&mut self, gate: Gate) -> Result<u16, DraftRefusal>
        ensures adds_or_answers_first_no { Added (drafted self.old) (Step.Gate gate) result (drafted self.new) }
    {
        if self.wires() >= 1024 {
            return Err(DraftRefusal::WireLimit);
        }
        match gate {
            Gate::Xor(a, b) => {
                let (first, second) = (self.operand(a)?, self.operand(b)?);
                let form = first.xor(second, self.heap)?;
                self.append(gate, form)
            }
            Gate::And(a, b) => {
                let (first, second) = (self.operand(a)?, self.operand(b)?);
                match and_form(first, second, self.heap)? {
                    Some(form) => self.append(gate, form),
                    None if self.nodes() >= 192 => Err(DraftRefusal::NodeLimit),
                    None => {
                        let node = Node {
                            first: first.clone()?,
                            second: second.clone()?,
                        };
                        self.append_node(gate, node)
                    }
                }
            }
            Gate::Inv(a) => {
                let form = self.operand(a)?.clone()?.invert();
                self.append(gate, form)
            }
        }
    }

    // Adds the wire a XOR b, and answers its number.
    pub fn xor(&mut self, a: u16, b: u16) -> Result<u16, DraftRefusal>
        ensures adds_or_answers_first_no { Added (drafted self.old) (Step.Gate (Gate.Xor a b)) result (drafted self.new) }
    {
        self.add(Gate::Xor(a, b))
    }

    // Adds the wire a AND b, and answers its number.
    pub fn and(&mut self, a: u16, b: u16) -> Result<u16, DraftRefusal>
        ensures adds_or_answers_first_no { Added (drafted self.old) (Step.Gate (Gate.And a b)) result (drafted self.new) }
    {
        self.add(Gate::And(a, b))
    }

    // Adds the complement of the wire a, and answers its number.
    pub fn inv(&mut self, a: u16) -> Result<u16, DraftRefusal>
        ensures adds_or_answers_first_no { Added (drafted self.old) (Step.Gate (Gate.Inv a)) result (drafted self.new) }
    {
        self.add(Gate::Inv(a))
    }

    // Marks a wire as the next output, and answers that output's number.
    #[tactic(auto, using(crate::proofs::Counts::outputs_still_exist))]
    pub fn output(&mut self, w: u16) -> Result<u16, DraftRefusal>
        ensures marks_or_answers_first_no { Marked (drafted self.old) w result (drafted self.new) }
    {
        if w >= self.wires() {
            return Err(DraftRefusal::NoSuchWire);
        }
        let k = self.outputs();
        if k >= 64 {
            return Err(DraftRefusal::OutputLimit);
        }
        self.outputs.push(w)?;
        Ok(k)
    }

    // Whether the draft can be sealed: it has an output.
    pub fn sealable(&self) -> Result<(), DraftRefusal>
        ensures tells_if_it_has_an_output { Sealable (drafted self.now) result }
    {
        if self.outputs() == 0 {
            return Err(DraftRefusal::NoOutput);
        }
        Ok(())
    }

    // The network; a draft that has no output comes back.
    pub fn seal(self) -> Result<Network, Draft>
        ensures seals_or_hands_back { Finished self result }
    {
        if self.sealable().is_err() {
            return Err(self);
        }
        Ok(Network { draft: self })
    }
}
