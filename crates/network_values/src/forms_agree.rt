// Random networks: what the forms and nodes say of an output is what its wire says.
use crate::samples::sealed;
use evaluation::evaluate_word;
use form::Form;
use network::{Draft, Gate, Network};
use pseudorandom::Generator;
use refusals::DraftRefusal;
use std::alloc::Global;
use std::test::Fail;

const NETWORKS: u16 = 40;

const INPUTS: u16 = 8;

const GATES: u16 = 60;

// A random gate that reads any wires so far. A throw of the die picks the gate.
fn add_gate(draft: &mut Draft, numbers: &mut Generator) -> Result<u16, DraftRefusal> {
    let a = numbers.below(draft.wires());
    let b = numbers.below(draft.wires());
    draft.add(match numbers.below(3) {
        0 => Gate::Xor(a, b),
        1 => Gate::And(a, b),
        _ => Gate::Inv(a),
    })
}

// A network of random gates whose outputs are its last eight wires.
fn random(heap: Global, numbers: &mut Generator) -> Result<Network, DraftRefusal> {
    let mut draft = Draft::new(heap, INPUTS)?;
    for _ in 0..GATES {
        add_gate(&mut draft, numbers)?;
    }
    for wire in GATES..GATES + INPUTS {
        draft.output(wire)?;
    }
    sealed(draft)
}

// The XOR of a form's elements and its constant, where the basis has these values.
fn form_value(form: &Form, basis: &[bool]) -> bool {
    form.elements().iter().fold(form.constant(), |value, e| {
        value ^ (basis.get(usize::from(*e)) == Some(&true))
    })
}

// The values of the inputs, bit by bit, and then of the nodes.
fn basis_at(heap: Global, network: &Network, word: u64) -> Result<Vec<bool>, DraftRefusal> {
    let mut basis: Vec<bool> = (0..INPUTS)
        .map(|i| (word >> u32::from(i)) % 2 == 1)
        .collect(heap)?;
    for node in (0..network.nodes()).filter_map(|i| network.node(i)) {
        let first = form_value(&node.first, &basis);
        let second = form_value(&node.second, &basis);
        basis.push(first & second)?;
    }
    Ok(basis)
}

// Bit j is the value of output j.
fn outputs_at(network: &Network, basis: &[bool]) -> u64 {
    (0..INPUTS).rev().filter_map(|j| network.output(j)).fold(
        0,
        |outputs, form| outputs << 1 | u64::from(form_value(form, basis)),
    )
}

#[test]
fn forms_have_the_values_of_wires(rt: HostRuntime) -> Result<(), Fail> {
    let mut numbers = Generator::new(1);
    for _ in 0..NETWORKS {
        let network = random(rt.alloc(), &mut numbers)?;
        let word = u64::from(numbers.below(256));
        let basis = basis_at(rt.alloc(), &network, word)?;
        assert_eq!(rt;
            evaluate_word(&network, rt.alloc(), word)?,
            outputs_at(&network, &basis)
        );
    }
    Ok(())
}
