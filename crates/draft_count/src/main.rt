// Makes 100 drafts of 64 inputs and 960 random gates each, and prints how many nodes they have and a sum over
// the forms of their outputs. bench/draft_ratio counts its instructions.
#![tactic(auto)]

use network::{Draft, Gate, Network};
use pseudorandom::Generator;
use refusals::DraftRefusal;
use std::alloc::Global;
use std::io;

const DRAFTS: u16 = 100;

const INPUTS: u16 = 64;

const WIRES: u16 = 1024;

// What is counted.
#[derive(Clone, Copy)]
struct Totals {
    nodes: u64,
    sum: u64,
}

// Adds a random gate over the first `at` wires: one in six is an AND, one in six an INV. A throw of the die
// picks the gate.
fn add_gate(draft: &mut Draft, numbers: &mut Generator, at: u16) -> Result<u16, DraftRefusal> {
    let kind = numbers.below(6);
    let a = numbers.below(at);
    let b = numbers.below(at);
    draft.add(match kind {
        0 => Gate::And(a, b),
        1 => Gate::Inv(a),
        _ => Gate::Xor(a, b),
    })
}

// A draft of random gates, as many as there is room for.
fn random_draft(heap: Global, numbers: &mut Generator) -> Result<Draft, DraftRefusal> {
    let mut draft = Draft::new(heap, INPUTS)?;
    for at in INPUTS..WIRES {
        add_gate(&mut draft, numbers, at)?;
    }
    Ok(draft)
}

// The network of a draft whose last 64 wires are the outputs.
fn sealed(mut draft: Draft) -> Result<Network, DraftRefusal> {
    for wire in WIRES - 64..WIRES {
        draft.output(wire)?;
    }
    draft.seal().map_err(|_| DraftRefusal::NoOutput)
}

fn sum_of(elements: &[u16]) -> u64 {
    elements
        .iter()
        .fold(0, |sum, e| sum.wrapping_add(u64::from(*e)))
}

// The sum of the elements and constants of all outputs.
fn outputs_sum(network: &Network) -> u64 {
    (0..network.outputs())
        .filter_map(|j| network.output(j))
        .fold(0, |sum, form| {
            sum.wrapping_add(sum_of(form.elements()))
                .wrapping_add(u64::from(form.constant()))
        })
}

fn counted(heap: Global) -> Result<Totals, DraftRefusal> {
    let mut numbers = Generator::new(1);
    let mut totals = Totals { nodes: 0, sum: 0 };
    for _ in 0..DRAFTS {
        let network = sealed(random_draft(heap, &mut numbers)?)?;
        totals.nodes = totals.nodes.wrapping_add(u64::from(network.nodes()));
        totals.sum = totals.sum.wrapping_add(outputs_sum(&network));
    }
    Ok(totals)
}

fn main(rt: HostRuntime) -> io::Result<()> {
    let Totals { nodes, sum } = counted(rt.alloc()).map_err(|_| io::Error::other("refused"))?;
    println!(rt; "nodes {nodes} sum {sum}")
}
