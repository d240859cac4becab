ghost use Rattle.std.specs.Prelude.{◌≡◌, is_some};
ghost use Rattle.ledger.specs.Ledgers.{line_in, line_of, ready, all_ready};

use super::Ledger;

// Where the values of basis elements stand: an input on its own line, a node on the line that it
// is held on.
#[derive(Clone, Copy)]
pub struct Lines<'l> {
    ledger: &'l Ledger,
    inputs: u16,
}

impl Ledger {
    // Where the values of the elements of a network with so many inputs stand.
    pub fn lines(&self, inputs: u16) -> Lines<'_>
        ensures same_ledger { result.ledger.now ≡ self.now }
        ensures same_inputs { result.inputs ≡ inputs }
    {
        Lines {
            ledger: self,
            inputs,
        }
    }
}

impl<'l> Lines<'l> {
    // The line of an input, or of a node that is held.
    fn at_hand(self, element: u16) -> Option<u16>
        ensures is_line_of_element { line_in result ≡ line_of self.entry.inputs self.entry.ledger.now.held element }
        ensures says_ready { is_some result ≡ ready self.entry.inputs self.entry.ledger.now.held element }
    {
        if element < self.inputs {
            Some(element)
        } else {
            self.ledger.held(element - self.inputs)
        }
    }

    // The line of a basis element, 0 for a node that is not held: no Option, since a move is spelled only where its
    // elements are at hand.
    pub fn of(self, element: u16) -> u16
        ensures is_line_of_element { result ≡ line_of self.entry.inputs self.entry.ledger.now.held element }
    {
        self.at_hand(element).unwrap_or(0)
    }

    // Whether every node of a set of basis elements is held.
    pub fn all_ready(self, elements: &[u16]) -> bool
        ensures says_all_ready { result ≡ all_ready self.entry.inputs self.entry.ledger.now.held elements.now }
    {
        elements.iter().all(|e| self.at_hand(*e).is_some())
    }
}
