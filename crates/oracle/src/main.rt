// Reads a Bristol Fashion text from standard input, compiles its network and prints the oracle circuit.
#![tactic(auto)]

ghost use Rattle.std.specs.Prelude.{◌≡◌};
ghost use Rattle.oracle.specs.declared.Failure.TheVariants.{Reading, Making, Compiling, Memory, Io};

use bristol::read_network;
use network::Network;
use record::Record;
use refusals::{DraftRefusal, MakeRefusal, Refusal, SessionRefusal, TextRefusal};
use session::{Ended, compile};
use sinks::Sink;
use std::alloc::{AllocError, Global};
use std::fmt::Write;
use std::io::{self, Read};
use std::process::ExitCode;

// The most bytes that a text may have.
const TEXT_BYTES: u64 = 65_536;

// The bytes of the record that a circuit is compiled into.
const RECORD_BYTES: usize = 65_536;

// Why there is no circuit: the text is refused, or memory is wanting or reading fails.
#[derive(Drop)]
enum Failure {
    Reading(TextRefusal),
    Making(MakeRefusal),
    Compiling(SessionRefusal),
    Memory(AllocError),
    Io(io::Error),
}

impl From<TextRefusal> for Failure {
    ghost from_gives = { λ refusal r. r ≡ Reading refusal };

    fn from(refusal: TextRefusal) -> Failure {
        Failure::Reading(refusal)
    }
}

impl From<MakeRefusal> for Failure {
    ghost from_gives = { λ refusal r. r ≡ Making refusal };

    fn from(refusal: MakeRefusal) -> Failure {
        Failure::Making(refusal)
    }
}

impl From<SessionRefusal> for Failure {
    ghost from_gives = { λ refusal r. r ≡ Compiling refusal };

    fn from(refusal: SessionRefusal) -> Failure {
        Failure::Compiling(refusal)
    }
}

impl From<AllocError> for Failure {
    ghost from_gives = { λ error r. r ≡ Memory error };

    fn from(error: AllocError) -> Failure {
        Failure::Memory(error)
    }
}

impl From<io::Error> for Failure {
    ghost from_gives = { λ error r. r ≡ Io error };

    fn from(error: io::Error) -> Failure {
        Failure::Io(error)
    }
}

// At most one byte more than a text may have, so that a longer one is known to be too long.
fn read_text(rt: &HostRuntime) -> io::Result<Vec<u8>> {
    let mut text = Vec::new(rt.alloc());
    rt.stdin().take(TEXT_BYTES + 1).read_to_end(&mut text)?;
    Ok(text)
}

// A line of counts, and then a line for each gate.
fn listing(heap: Global, network: &Network, record: &Record) -> Result<String, AllocError> {
    let lines = record.width();
    let inputs = network.inputs();
    let outputs = network.outputs();
    let gates = record.count();
    let t = record.t_count();
    let mut out = format!(in heap;
        "lines {lines} inputs {inputs} outputs {outputs} gates {gates} t {t}\n"
    )?;
    for gate in (0..gates).filter_map(|k| record.gate(k)) {
        writeln!(out, "{gate}")?;
    }
    Ok(out)
}

// The listing of the network's circuit, compiled on as many lines as keep every node at once.
fn compiled(heap: Global, network: &Network) -> Result<String, Failure> {
    let mut buffer = vec![in heap; 0u8; RECORD_BYTES]?;
    let lines = network.inputs() + network.outputs() + network.nodes();
    let record = Record::new(&mut buffer, lines)?;
    let Ended { sink, answer } = compile(network, record);
    answer?;
    Ok(listing(heap, network, &sink)?)
}

fn run(rt: &HostRuntime) -> Result<String, Failure> {
    let text = read_text(rt)?;
    let network = read_network(rt.alloc(), &text)?;
    compiled(rt.alloc(), &network)
}

// Prints the number of what refuses the text.
fn refused(rt: &HostRuntime, refusal: impl Refusal) -> io::Result<ExitCode> {
    let number = refusal.number();
    println!(rt; "refused {number}")?;
    Ok(ExitCode::FAILURE)
}

fn main(rt: HostRuntime) -> io::Result<ExitCode> {
    match run(&rt) {
        Ok(listing) => {
            rt.print(listing)?;
            Ok(ExitCode::SUCCESS)
        }
        Err(Failure::Memory(error)) => Err(io::Error::from(error)),
        Err(Failure::Reading(TextRefusal::Draft(DraftRefusal::OutOfMemory))) => {
            Err(io::Error::from(AllocError))
        }
        Err(Failure::Reading(refusal)) => refused(&rt, refusal),
        Err(Failure::Making(refusal)) => refused(&rt, refusal),
        Err(Failure::Compiling(refusal)) => refused(&rt, refusal),
        Err(Failure::Io(error)) => Err(error),
    }
}
