ghost use Rattle.std.specs.Prelude.{◌≡◌, ◌+◌, ◌<◌, ◌≤◌, true, map, IfSome, MatchOption};
ghost use Rattle.form.specs.Shapes.{shape};
ghost use Rattle.network.specs.Wires.{wire_shape, node_shape, node_count, output_count, node_at, output_form, within, proper_node};
ghost use Rattle.network.specs.Networks.{sealed};

use super::Network;
use crate::lists::item;
use crate::wire::{Node, Wire};
use form::Form;

// The counts are the draft's, and a network says more of them.
impl Network {
    // How many inputs there are.
    pub fn inputs(&self) -> u16
        ensures is_the_number_of_inputs { result ≡ (sealed self.now).inputs }
        ensures is_from_1_to_64 { (1 ≤ result) × (result ≤ 64) }
    {
        self.draft.inputs
    }

    // How many nodes there are.
    pub fn nodes(&self) -> u16
        ensures is_the_number_of_nodes { result ≡ node_count (sealed self.now) }
        ensures is_at_most_192 { result ≤ 192 }
    {
        self.draft.nodes()
    }

    // How many outputs there are.
    pub fn outputs(&self) -> u16
        ensures is_the_number_of_outputs { result ≡ output_count (sealed self.now) }
        ensures is_from_1_to_64 { (1 ≤ result) × (result ≤ 64) }
    {
        self.draft.outputs()
    }

    // The wires, in order.
    pub fn wires(&self) -> &[Wire]
        ensures are_the_wires { map wire_shape result.now ≡ (sealed self.now).body.wires }
    {
        self.draft.wires.as_slice()
    }

    // The outputs' wires, in order.
    pub fn output_wires(&self) -> &[u16]
        ensures are_the_output_wires { result.now ≡ (sealed self.now).outputs }
    {
        self.draft.outputs.as_slice()
    }

    // Node i, where there is one.
    pub fn node(&self, i: u16) -> Option<&Node>
        ensures is_node_i { MatchOption result (node_count (sealed self.now) ≤ i) (λ d. (i < node_count (sealed self.now)) × (node_shape d.now ≡ node_at (sealed self.now) i)) }
        ensures sets_are_proper { IfSome result (λ d. proper_node ((sealed self.now).inputs + i) (node_shape d.now) ≡ true) }
    {
        item(&self.draft.nodes, i)
    }

    // The form of output j, where there is one.
    pub fn output(&self, j: u16) -> Option<&Form>
        ensures is_form_of_output_j { MatchOption result (output_count (sealed self.now) ≤ j) (λ f. (j < output_count (sealed self.now)) × (shape f.now ≡ output_form (sealed self.now) j)) }
        ensures form_is_in_the_basis { IfSome result (λ f. within ((sealed self.now).inputs + node_count (sealed self.now)) (shape f.now) ≡ true) }
    {
        self.draft.form(*item(&self.draft.outputs, j)?)
    }
}
