// What takes gates: the trait of sinks, and the questions that every offer is asked.
#![tactic(auto)]

ghost use Rattle.std.specs.Prelude.{◌≡◌, MatchResult};
ghost use Rattle.circuit.specs.declared.Gate.{Gate};
ghost use Rattle.sinks.specs.Questions.{judged};
ghost use Rattle.sinks.specs.Meaning.{Meaning, answer};
ghost use Rattle.sinks.specs.Laws.{Laws};

use circuit::Gate;
use refusals::OfferRefusal;

// The questions of an offer at a width and a number of free places; the first no is the answer.
pub fn judge(g: Gate, width: u16, free: u64) -> Result<(), OfferRefusal>
    ensures is_first_no { result ≡ judged g width free }
{
    if !g.lines_inside(width) {
        return Err(OfferRefusal::LineOutside);
    }
    if !g.lines_apart() {
        return Err(OfferRefusal::LinesRepeat);
    }
    if free == 0 {
        return Err(OfferRefusal::NoPlace);
    }
    Ok(())
}

// A sink takes gates. Each function that makes a sink promises that it is fresh (`Fresh` of its meaning) where it has
// taken nothing. What a sink's code keeps true stands in its type, as an invariant or in ghost fields: so every promise
// below holds of every sink.
pub trait Sink {
    // What a sink means: its width, what the gates so far do to each start state, its T-count and its free places.
    ghost meaning: { Self → Meaning };

    // `took s g t`: t is s after it accepted g. It may tell more than the meaning does, as which bytes were written.
    ghost took: { Self → Gate → Self → Type 0 };

    // `shut s t`: t is s after a close.
    ghost shut: { Self → Self → Type 0 };

    // The proof that `took` appends the gate to the meaning, that `shut` keeps all but the free places, which become
    // none, that a second close changes nothing, and that the counts fit 64 bits.
    ghost laws: { Laws meaning took shut };

    // How many lines there are. A gate's lines are below it.
    fn width(&self) -> u16
        ensures width_is_meant { result ≡ (meaning self.now).width };

    // The T-count of the gates taken.
    fn t_count(&self) -> u64
        ensures t_count_is_meant { result ≡ (meaning self.now).tcount };

    // How many more gates are sure to be taken, each where its lines are below the width and differ.
    fn free(&self) -> u64
        ensures free_is_meant { result ≡ (meaning self.now).free };

    // Takes the gate exactly if every question of `judge` gets a yes; a refused offer changes nothing.
    fn offer(&mut self, g: Gate) -> Result<(), OfferRefusal>
        ensures answers_first_no { result ≡ answer g (meaning self.old) }
        ensures taken_or_unchanged { MatchResult result (λ _. took self.old g self.new) (λ _. self.new ≡ self.old) };

    // Ends the taking: there is no free place after it. A second close does nothing more.
    fn close(&mut self)
        ensures shuts { shut self.old self.new };
}
