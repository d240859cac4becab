ghost use Rattle.std.specs.Prelude.{◌≡◌, [], true};
ghost use Rattle.circuit.specs.declared.Gate.TheVariants.{And};
ghost use Rattle.form.specs.Shapes.{shape};
ghost use Rattle.network.specs.Wires.{node_shape};
ghost use Rattle.network.specs.Networks.{sealed};
ghost use Rattle.moves.specs.Fans.{line_by, adds, others, not_if, fan, copied};
ghost use Rattle.moves.specs.Spelling.{first_carrier, second_carrier, prelude, known, around_of, core_of};
ghost use Rattle.moves.specs.Spellers.{Adds};

use super::{Gates, Speller};
use crate::carriers::{Carriers, Fan};
use circuit::Gate;
use form::Form;
use ledger::{Lines, Move};
use network::{Network, Node};

impl<'l> Speller<'l> {
    pub(crate) fn new(lines: Lines<'l>) -> Speller<'l>
        ensures has_no_gate { result.gates.items ≡ [] }
        ensures same_lines { result.lines ≡ lines.entry }
    {
        Speller {
            gates: Gates::new(),
            lines,
        }
    }
}

impl Speller<'_> {
    // A cnot onto line t from the line of each element, but not from that of the one left out.
    fn add_elements(&mut self, elements: &[u16], left_out: Option<u16>, t: u16)
        ensures adds_elements { Adds self.old (adds (line_by self.old.lines) t (others left_out elements.now)) self.new }
    {
        let lines = self.lines;
        let cnots = elements
            .iter()
            .filter(|e| Some(**e) != left_out)
            .map(|e| Gate::Cnot { a: lines.of(*e), t });
        let room = self.gates.remaining_capacity();
        let _ = self.gates.extend(cnots.take(room));
    }

    // A not where the constant is 1.
    fn add_constant(&mut self, constant: bool, t: u16)
        ensures adds_not_if { Adds self.old (not_if constant t) self.new }
    {
        // `is_full` is asked even where the constant is 0: its contract says that at most 512 gates stand,
        // which that of `try_push` says only where it refuses
        if !self.gates.is_full() && constant {
            self.gates.push(Gate::Not { t });
        }
    }

    // Each element but the carrier is added to the carrier's line.
    fn add_fan(&mut self, set: Fan<'_>)
        ensures adds_fan { Adds self.old (fan (line_by self.old.lines) set.entry.carrier set.entry.elements.now) self.new }
    {
        let t = self.lines.of(set.carrier);
        self.add_elements(set.elements, Some(set.carrier), t);
    }

    // A node computed on line t: its two forms are brought each onto its carrier's line, and their AND goes
    // on t. Adds the gates around that AND, and returns it.
    fn spell_node(&mut self, node: &Node, t: u16) -> Gate
        ensures adds_prelude { Adds self.old (prelude (line_by self.old.lines) (node_shape node.now)) self.new }
        ensures is_and { result ≡ And (line_by self.old.lines (first_carrier (node_shape node.now))) (line_by self.old.lines (second_carrier (node_shape node.now))) t }
    {
        let carriers = Carriers::of(node);
        let a = self.lines.of(carriers.first);
        let b = self.lines.of(carriers.second);
        self.add_fan(carriers.leading);
        self.add_fan(carriers.other);
        self.add_constant(node.first.constant(), a);
        self.add_constant(node.second.constant(), b);
        Gate::And { a, b, t }
    }

    // Adds a form to line t.
    fn spell_form(&mut self, form: &Form, t: u16)
        ensures adds_copied { Adds self.old (copied (line_by self.old.lines) (shape form.now) t) self.new }
    {
        self.add_elements(form.elements(), None, t);
        self.add_constant(form.constant(), t);
    }

    // Adds the gates around a move's core, and returns the core; neither for a node or an output that the
    // network does not have.
    pub(crate) fn spell(&mut self, network: &Network, made: Move) -> Option<Gate>
        requires lines_of_network { self.now.lines.inputs ≡ (sealed network.now).inputs }
        ensures adds_around { known (sealed network.now) made ≡ true → Adds self.old (around_of (sealed network.now) self.old.lines.ledger.now.held made) self.new }
        ensures is_core { known (sealed network.now) made ≡ true → result ≡ core_of (sealed network.now) self.old.lines.ledger.now.held made }
    {
        match made {
            Move::Compute { node, line } => Some(self.spell_node(network.node(node)?, line)),
            Move::Release { node, line } => {
                Some(self.spell_node(network.node(node)?, line).inverse())
            }
            Move::Copy { output } => {
                self.spell_form(network.output(output)?, network.inputs() + output);
                None
            }
        }
    }
}
