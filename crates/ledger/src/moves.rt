ghost use Rattle.std.specs.Prelude.{◌≡◌};
ghost use Rattle.ledger.specs.Ledgers.{undoing};

// A move that was accepted and stands: a node computed on a line, a node released from a line,
// an output copied onto its line.
#[derive(Clone, Copy, PartialEq, Eq, Debug)]
pub enum Move {
    Compute { node: u16, line: u16 },
    Release { node: u16, line: u16 },
    Copy { output: u16 },
}

impl Move {
    // The move that takes this one back.
    pub(crate) fn inverse(self) -> Move
        ensures is_its_undoing { result ≡ undoing self }
    {
        match self {
            Move::Compute { node, line } => Move::Release { node, line },
            Move::Release { node, line } => Move::Compute { node, line },
            Move::Copy { .. } => self,
        }
    }
}
