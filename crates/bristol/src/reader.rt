ghost use Rattle.std.specs.Prelude.{◌≡◌, []};
ghost use Rattle.scan.specs.Cuts.{cut};
ghost use Rattle.bristol.specs.Reading.{answer, ahead, number_first, operation_first, sum_first, width_first, header_first, operands_first, line_first, end_first};

use crate::gate::{GateLine, Operands, Operation};
use crate::header::Header;
use refusals::TextRefusal;
use scan::Scanner;

// Reads a text's header and gates, token by token.
#[derive(Drop)]
pub(crate) struct Reader<'a> {
    scanner: Scanner<'a>,
}

impl<'a> Reader<'a> {
    // A reader of the whole text.
    pub(crate) fn new(text: &'a [u8]) -> Reader<'a>
        ensures has_every_piece_ahead { ahead result ≡ cut 0 [] text.now }
    {
        Reader {
            scanner: Scanner::new(text),
        }
    }

    // The next token, which is to be a number.
    fn number(&mut self) -> Result<u16, TextRefusal>
        ensures reads_a_number { answer result (ahead self.new) ≡ number_first (ahead self.old) }
    {
        self.scanner
            .next()
            .and_then(|token| token.worth())
            .ok_or(TextRefusal::Malformed)
    }

    // The next token, which is to be an operation.
    fn operation(&mut self) -> Result<Operation, TextRefusal>
        ensures reads_an_operation { answer result (ahead self.new) ≡ operation_first (ahead self.old) }
    {
        let token = self.scanner.next().ok_or(TextRefusal::Malformed)?;
        Operation::try_from(token.text())
    }

    // The sum of the next `count` numbers.
    #[tactic(auto, using(crate::proofs::Sums::one_more))]
    fn sum(&mut self, count: u16) -> Result<u32, TextRefusal>
        ensures reads_and_adds_numbers { answer result (ahead self.new) ≡ sum_first count 0 (ahead self.old) }
    {
        let mut sum: u32 = 0;
        for _ in 0..count {
            sum += u32::from(self.number()?);
        }
        Ok(sum)
    }

    // The width of some values together: how many there are, and then the width of each.
    fn total_width(&mut self) -> Result<u32, TextRefusal>
        ensures reads_widths { answer result (ahead self.new) ≡ width_first (ahead self.old) }
    {
        let count = self.number()?;
        self.sum(count)
    }

    // The header.
    pub(crate) fn header(&mut self) -> Result<Header, TextRefusal>
        ensures reads_a_header { answer result (ahead self.new) ≡ header_first (ahead self.old) }
    {
        let gates = self.number()?;
        let wires = self.number()?;
        let inputs = self.total_width()?;
        let outputs = self.total_width()?;
        Header::new(gates, wires, inputs, outputs)
    }

    // The wires read by a gate that reads and gives so many.
    fn operands(&mut self, reads: u16, gives: u16) -> Result<Operands, TextRefusal>
        ensures reads_the_operands { answer result (ahead self.new) ≡ operands_first reads gives (ahead self.old) }
    {
        match (reads, gives) {
            (1, 1) => Ok(Operands::One(self.number()?)),
            (2, 1) => Ok(Operands::Two(self.number()?, self.number()?)),
            _ => Err(TextRefusal::GateShape),
        }
    }

    // The next gate.
    pub(crate) fn gate_line(&mut self) -> Result<GateLine, TextRefusal>
        ensures reads_a_gate { answer result (ahead self.new) ≡ line_first (ahead self.old) }
    {
        let reads = self.number()?;
        let count = self.number()?;
        let operands = self.operands(reads, count)?;
        let gives = self.number()?;
        let operation = self.operation()?;
        let gate = operation.over(operands)?;
        Ok(GateLine { gate, gives })
    }

    // Whether no token is left.
    pub(crate) fn end(&mut self) -> Result<(), TextRefusal>
        ensures reads_the_end { answer result (ahead self.new) ≡ end_first (ahead self.old) }
    {
        match self.scanner.next() {
            Some(_) => Err(TextRefusal::Malformed),
            None => Ok(()),
        }
    }
}
