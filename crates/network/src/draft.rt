// A network that is being built.
ghost use Rattle.std.specs.Prelude.{◌≡◌, ◌+◌, ◌≤◌, true, map, vec_len};
ghost use Rattle.form.specs.Sets.{all_below};
ghost use Rattle.network.specs.Wires.{body_of, wire_shape, node_shape, grown, steps_of, no_wires, valid, forms_within, proper_nodes};

use crate::wire::{Node, Wire};
use std::alloc::Global;

mod ops;

#[derive(Drop)]
pub struct Draft {
    heap: Global,
    pub(crate) inputs: u16,
    pub(crate) wires: Vec<Wire>,
    pub(crate) nodes: Vec<Node>,
    pub(crate) outputs: Vec<u16>,
    ghost some_input: { 1 ≤ inputs },
    ghost input_limit: { inputs ≤ 64 },
    ghost wire_limit: { vec_len wires ≤ 1024 },
    ghost node_limit: { vec_len nodes ≤ 192 },
    ghost output_limit: { vec_len outputs ≤ 64 },
    ghost by_the_rules: { ∥ grown inputs no_wires (steps_of wires.items) ≡ body_of wires.items nodes.items ∥₁ },
    ghost reads_earlier: { valid inputs 0 (steps_of wires.items) ≡ true },
    ghost outputs_exist: { all_below outputs.items (vec_len wires) ≡ true },
    ghost forms_in_basis: { forms_within (inputs + vec_len nodes) (map wire_shape wires.items) ≡ true },
    ghost nodes_proper: { proper_nodes inputs (map node_shape nodes.items) ≡ true },
}
