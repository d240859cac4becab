ghost use Rattle.std.specs.Prelude.{◌≡◌, ◌<◌, ◌≤◌, false, [], take, replicate, None, slice_index_or, slice_set};
ghost use Rattle.ledger.specs.Ledgers.{past, standing, held_after, odd_after, Noted, TakenBack, Undone, free_line, any_held, all_true};

use super::Ledger;
use crate::moves::Move;

// Puts what a node is held on; a node past the last changes nothing. (Here and in `turn` no `get_mut`: a proof does not
// learn what an array holds after a write through it.)
fn set_line(held: &mut [Option<u16>; 192], node: u16, line: Option<u16>)
    ensures sets_its_slot { held.new ≡ slice_set held.old node line }
{
    let node = usize::from(node);
    if node < held.len() {
        held[node] = line;
    }
}

fn hold(held: &mut [Option<u16>; 192], made: Move)
    ensures is_held_after { held.new ≡ held_after held.old made }
{
    match made {
        Move::Compute { node, line } => set_line(held, node, Some(line)),
        Move::Release { node, .. } => set_line(held, node, None),
        Move::Copy { .. } => {}
    }
}

fn turn(odd: &mut [bool; 64], made: Move)
    ensures is_odd_after { odd.new ≡ odd_after odd.old made }
{
    if let Move::Copy { output } = made {
        let output = usize::from(output);
        if output < odd.len() {
            odd[output] = !odd[output];
        }
    }
}

impl Ledger {
    // No node held, an empty log.
    pub fn new() -> Ledger
        ensures nothing_stands { past result ≡ [] }
        ensures nothing_is_held { result.held ≡ replicate 192 None }
        ensures no_copies { result.odd ≡ replicate 64 false }
        ensures nothing_to_undo { result.undo ≡ 0 }
    {
        Ledger {
            log: [Move::Copy { output: 0 }; 1024],
            standing: 0,
            held: [None; 192],
            odd: [false; 64],
            undo: 0,
        }
    }

    // The line that a node is held on.
    pub fn held(&self, node: u16) -> Option<u16>
        ensures is_its_line { result ≡ slice_index_or self.now.held node None }
    {
        *self.held.get(usize::from(node))?
    }

    // Whether no node is held on a line.
    pub fn is_free(&self, line: u16) -> bool
        ensures says_free { result ≡ free_line line self.now.held }
    {
        self.held.iter().all(|slot| *slot != Some(line))
    }

    // Whether any node is held.
    pub fn any_held(&self) -> bool
        ensures says_any_held { result ≡ any_held self.now.held }
    {
        self.held.iter().any(|slot| slot.is_some())
    }

    // Whether each of the first m outputs, of at most 64, has an odd number of standing copies.
    pub fn all_odd(&self, m: u16) -> bool
        ensures says_all_odd { result ≡ all_true (take m self.now.odd) }
    {
        self.odd.iter().take(usize::from(m)).all(|odd| *odd)
    }

    // How many moves stand.
    pub fn standing(&self) -> usize
        ensures counts_standing { result ≡ standing self.now }
        ensures is_at_most_1024 { result ≤ 1024 }
    {
        self.standing
    }

    // How many gates winding every standing move back takes.
    pub fn undo_cost(&self) -> u64
        ensures is_undo_cost { result ≡ self.now.undo }
    {
        self.undo
    }

    // Puts a move of so many gates last into the log, unless 1,024 moves stand.
    pub fn note(&mut self, made: Move, cost: u64)
        ensures notes_the_move { standing self.old < 1024 → Noted self.old made cost self.new }
        ensures full_log_is_unchanged { standing self.old ≡ 1024 → self.new ≡ self.old }
    {
        if self.standing < 1024 {
            self.log[self.standing] = made;
            self.standing += 1;
            self.undo = self.undo.saturating_add(cost);
            hold(&mut self.held, made);
            turn(&mut self.odd, made);
        }
    }

    // Takes the last standing move off the log; its gates still count as ones to undo.
    pub fn take_back(&mut self) -> Option<Move>
        ensures takes_the_last { TakenBack self.old result self.new }
    {
        self.standing = self.standing.checked_sub(1)?;
        let made = self.log[self.standing];
        hold(&mut self.held, made.inverse());
        turn(&mut self.odd, made);
        Some(made)
    }

    // So many gates fewer are left to undo.
    pub fn undone(&mut self, cost: u64)
        ensures lowers_undo_cost { Undone self.old cost self.new }
    {
        self.undo = self.undo.saturating_sub(cost);
    }
}
