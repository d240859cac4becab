// The value of a network over any algebra, wire by wire.
ghost use Rattle.std.specs.Prelude.{◌≡◌, ℕ, map, get_or, IfOk, slice_index_or};
ghost use Rattle.network.specs.Networks.{sealed};
ghost use Rattle.network.specs.Values.{given, step_value, wire_values, output_values, HasValueOfChain};

use network::{Gate, Network, Step};
use std::alloc::{AllocError, Global};
use values::Algebra;

// Value i, or zero where there is none.
fn value_at<V: Algebra>(values: &[V], i: usize) -> V
    ensures is_value_i_or_zero { V.meaning result ≡ slice_index_or (map V.meaning values.now) i V.ring.zero }
{
    values.get(i).copied().unwrap_or_else(|| V::zero())
}

// The value of a wire, after wires with these values.
fn value_of_step<V: Algebra>(step: Step, inputs: &[V], values: &[V]) -> V
    ensures is_value_of_step { V.meaning result ≡ step_value V.ring (given V.ring (map V.meaning inputs.now)) (map V.meaning values.now) step }
{
    let value = |i: u16| value_at(values, usize::from(i));
    match step {
        Step::Input => value_at(inputs, values.len()),
        Step::Gate(Gate::Xor(a, b)) => value(a).sum(value(b)),
        Step::Gate(Gate::And(a, b)) => value(a).product(value(b)),
        Step::Gate(Gate::Inv(a)) => V::one().sum(value(a)),
    }
}

// The value of each wire. A loop, since a wire reads the values before it.
fn values_of_wires<V: Algebra>(
    network: &Network,
    heap: Global,
    inputs: &[V],
) -> Result<Vec<V>, AllocError>
    ensures are_the_wire_values { IfOk result (λ v. map V.meaning v.items ≡ wire_values V.ring (given V.ring (map V.meaning inputs.now)) (sealed network.now)) }
{
    let mut values = Vec::new(heap);
    for wire in network.wires() {
        values.push(value_of_step(wire.step, inputs, &values))?;
    }
    Ok(values)
}

// The values at these places, in order.
fn values_at<V: Algebra>(heap: Global, values: &[V], places: &[u16]) -> Result<Vec<V>, AllocError>
    ensures are_the_values_there { IfOk result (λ v. map V.meaning v.items ≡ map (λ w. get_or (map V.meaning values.now) w V.ring.zero) places.now) }
{
    places
        .iter()
        .map(|place| value_at(values, usize::from(*place)))
        .collect(heap)
}

// The value of each output, at these inputs. Missing inputs count as zero, and further ones for nothing.
#[tactic(auto, using(network::proofs::Theorem::draft_has_value_of_chain))]
pub fn evaluate<V: Algebra>(
    network: &Network,
    heap: Global,
    inputs: &[V],
) -> Result<Vec<V>, AllocError>
    ensures are_the_output_values { IfOk result (λ v. map V.meaning v.items ≡ output_values V.ring (given V.ring (map V.meaning inputs.now)) (sealed network.now)) }
    ensures network_has_the_value_of_its_chain { (x : ℕ → V.Meaning) → HasValueOfChain V.ring x (sealed network.now) }
{
    let values = values_of_wires(network, heap, inputs)?;
    values_at(heap, &values, network.output_wires())
}
