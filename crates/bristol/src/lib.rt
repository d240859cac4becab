// Networks from Bristol Fashion text.
#![tactic(auto)]

ghost use Rattle.std.specs.Prelude.{◌≡◌, [], length, nat_lt};
ghost use Rattle.network.specs.Networks.{sealed};
ghost use Rattle.bristol.specs.Answers.{Answered, Left};
ghost use Rattle.bristol.specs.Building.{building};
ghost use Rattle.bristol.specs.Reading.{ahead};
ghost use Rattle.bristol.specs.Refusals.{is_too_long};
ghost use Rattle.bristol.specs.Texts.{gates_first, read_pieces, read_text};
ghost use Rattle.scan.specs.Cuts.{cut};

use network::Network;
use refusals::TextRefusal;
use std::alloc::Global;

mod builder;
mod gate;
mod header;
mod reader;

use builder::Builder;
use reader::Reader;

// The most bytes that a text may have.
const TEXT_LIMIT: usize = 65536;

// The network that a text describes.
#[tactic(auto, using(crate::proofs::Lengths::not_too_long))]
pub fn read_network(heap: Global, text: &[u8]) -> Result<Network, TextRefusal>
    ensures too_long_is_refused_first { is_too_long result ≡ nat_lt 65536 (length text.now) }
    ensures is_the_network_of_the_text { Answered sealed result (read_text text.now) }
{
    if text.len() > TEXT_LIMIT {
        return Err(TextRefusal::TooLong);
    }
    read(heap, text)
}

// The network of a text that is not too long.
fn read(heap: Global, text: &[u8]) -> Result<Network, TextRefusal>
    ensures is_the_network_of_the_pieces { Answered sealed result (read_pieces (cut 0 [] text.now)) }
{
    let mut reader = Reader::new(text);
    let header = reader.header()?;
    let mut builder = Builder::new(heap, header.inputs, header.wires)?;
    add_gates(&mut builder, &mut reader, header.gates)?;
    reader.end()?;
    builder.finish(header.outputs)
}

// Reads and adds the next `count` gates.
#[tactic(auto, using(crate::proofs::Gates::one_more))]
fn add_gates(builder: &mut Builder, reader: &mut Reader, count: u16) -> Result<(), TextRefusal>
    ensures adds_each { Left result (building builder.new, ahead reader.new) (gates_first count (building builder.old) (ahead reader.old)) }
{
    for _ in 0..count {
        let line = reader.gate_line()?;
        builder.add(line)?;
    }
    Ok(())
}
