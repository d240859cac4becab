// A sink that keeps its gates in the caller's bytes.
#![tactic(auto)]

ghost use Rattle.std.specs.Prelude.{◌≡◌, length, Ok, Err, IfOk, MatchResult};
ghost use Rattle.std.specs.List.{slice_get};
ghost use Rattle.record.specs.Making.{checked};
ghost use Rattle.record.specs.Records.{recorded, Empty, Made, Taken, Shut, gates};
ghost use Rattle.record.specs.RecordLaws.{record_laws};
ghost use Rattle.record.specs.Limits.{LimitsLast};

mod bytes;
mod record;

use bytes::{decode, encode, write_trailer};
use circuit::Gate;
pub use record::Record;
use refusals::{MakeRefusal, OfferRefusal};
use sinks::{Sink, judge};

impl<'a> Record<'a> {
    // Whether a record of this width can lie in a buffer of this size.
    pub fn check(width: u16, size: usize) -> Result<(), MakeRefusal>
        ensures is_first_no { result ≡ checked width size }
    {
        if !(1..=320).contains(&width) {
            return Err(MakeRefusal::Width);
        }
        if !(12..=524292).contains(&size) {
            return Err(MakeRefusal::Size);
        }
        Ok(())
    }

    // An empty record over the whole buffer, where `check` says yes; else one with no places.
    pub fn over(buffer: &'a mut [u8], width: u16) -> Record<'a>
        ensures lends_the_buffer { result.buffer ≡ buffer.entry }
        ensures is_empty { Empty buffer.entry width result }
        ensures is_made { checked width (length buffer.old) ≡ Ok tt → Made buffer.entry width result }
        ensures keeps_its_limits { checked width (length buffer.old) ≡ Ok tt → LimitsLast result }
    {
        let places = if Self::check(width, buffer.len()).is_ok() {
            // at most 65,535 by the check
            ((buffer.len() - 12) / 8) as u16
        } else {
            0
        };
        Record {
            buffer,
            width,
            places,
            count: 0,
            t_count: 0,
            closed: false,
        }
    }

    // The same, with a refusal where `check` says no. A caller who will read its own buffer afterwards calls `check`
    // and then `over`, since only a record that comes outright is known to lie in that buffer.
    pub fn new(buffer: &'a mut [u8], width: u16) -> Result<Record<'a>, MakeRefusal>
        ensures made_or_first_no { MatchResult result (λ s. Made buffer.entry width s × (checked width (length buffer.old) ≡ Ok tt)) (λ e. checked width (length buffer.old) ≡ Err e) }
        ensures keeps_its_limits { IfOk result LimitsLast }
    {
        Self::check(width, buffer.len())?;
        Ok(Self::over(buffer, width))
    }

    // How many gates it holds.
    #[tactic(auto, using(crate::specs::Blocks::length_gates))]
    pub fn count(&self) -> u16
        ensures is_number_of_gates { result ≡ length (gates self.now) }
    {
        self.count
    }

    // The gate at place k, counted from 0.
    #[tactic(auto, using(crate::proofs::Held::none_past_the_last, crate::proofs::Held::is_the_gate_held))]
    pub fn gate(&self, k: u16) -> Option<Gate>
        ensures is_gate_at_k { result ≡ slice_get (gates self.now) k }
    {
        if k >= self.count {
            return None;
        }
        let at = 8 * usize::from(k);
        decode(&self.buffer[at..at + 8])
    }
}

impl<'a> Sink for Record<'a> {
    ghost meaning = { recorded };

    ghost took = { Taken };

    ghost shut = { Shut };

    ghost laws = { record_laws };

    fn width(&self) -> u16 {
        self.width
    }

    fn t_count(&self) -> u64 {
        u64::from(self.t_count)
    }

    fn free(&self) -> u64 {
        if self.closed {
            return 0;
        }
        u64::from(self.places - self.count)
    }

    fn offer(&mut self, g: Gate) -> Result<(), OfferRefusal> {
        judge(g, self.width, self.free())?;
        let at = 8 * usize::from(self.count);
        encode(&mut self.buffer[at..], g);
        self.t_count += g.t_cost();
        self.count += 1;
        Ok(())
    }

    fn close(&mut self) {
        if self.closed {
            return;
        }
        self.closed = true;
        // only a record that `check` does not allow has no room for the trailer
        if self.buffer.len() < 12 {
            return;
        }
        let at = 8 * usize::from(self.count);
        let distance = 8 * u32::from(self.count);
        write_trailer(&mut self.buffer[at..], distance, self.width, self.t_count);
    }
}
