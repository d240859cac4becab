// The basis elements on whose lines a node's two forms are put together.
ghost use Rattle.std.specs.Prelude.{◌≡◌, [], ◌∷◌};
ghost use Rattle.form.specs.Shapes.{shape};
ghost use Rattle.network.specs.Wires.{node_shape};
ghost use Rattle.moves.specs.Spelling.{lowest as lowest_of, first_carrier, second_carrier, in_order};

use form::Form;
use network::Node;

// A form's elements, to be added up on the line of one of them, their carrier.
#[derive(Clone, Copy)]
pub(crate) struct Fan<'n> {
    pub(crate) elements: &'n [u16],
    pub(crate) carrier: u16,
}

// The carriers of a node's first and second set, and its sets in the order in which they are formed.
#[derive(Clone, Copy)]
pub(crate) struct Carriers<'n> {
    pub(crate) first: u16,
    pub(crate) second: u16,
    pub(crate) leading: Fan<'n>,
    pub(crate) other: Fan<'n>,
}

impl<'n> Fan<'n> {
    fn of(form: &'n Form, carrier: u16) -> Fan<'n>
        ensures has_elements { result.elements.now ≡ (shape form.now).set }
        ensures has_carrier { result.carrier ≡ carrier }
    {
        Fan {
            elements: form.elements(),
            carrier,
        }
    }
}

// 0 where the form has no element: no Option, since a network keeps that no set of a node is empty,
// and the definition says 0 as well.
fn lowest(form: &Form) -> u16
    ensures is_lowest { result ≡ lowest_of (shape form.now).set }
{
    form.elements().first().copied().unwrap_or(0)
}

impl Carriers<'_> {
    // The set that has an element outside the other is formed first, the first set before the second:
    // formed the other way round, the smaller of two nested sets would destroy a line that the larger needs.
    pub(crate) fn of(node: &Node) -> Carriers<'_>
        ensures first { result.first ≡ first_carrier (node_shape node.now) }
        ensures second { result.second ≡ second_carrier (node_shape node.now) }
        ensures in_order { (result.leading.elements.now, result.leading.carrier) ∷ (result.other.elements.now, result.other.carrier) ∷ [] ≡ in_order (node_shape node.now) }
    {
        let (p, q) = (&node.first, &node.second);
        match p.lowest_outside(q) {
            Some(first) => {
                let second = lowest(q);
                Carriers {
                    first,
                    second,
                    leading: Fan::of(p, first),
                    other: Fan::of(q, second),
                }
            }
            None => {
                let first = lowest(p);
                // 0 where the sets are the same, which a network keeps out too
                let second = q.lowest_outside(p).unwrap_or(0);
                Carriers {
                    first,
                    second,
                    leading: Fan::of(q, second),
                    other: Fan::of(p, first),
                }
            }
        }
    }
}
