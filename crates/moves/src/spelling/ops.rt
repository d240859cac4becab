ghost use Rattle.std.specs.Prelude.{◌≡◌, ◌≤◌, true, length, take};
ghost use Rattle.moves.specs.Spelling.{known, around_of, core_of};
ghost use Rattle.moves.specs.Spelled.{spelled};
ghost use Rattle.network.specs.Networks.{sealed};

use super::Spelling;
use crate::speller::Speller;
use circuit::Gate;
use ledger::{Ledger, Move};
use network::Network;

impl Spelling {
    // The gates of a move, where the ledger says which lines the nodes are held on; none at all for a
    // node or an output that the network does not have.
    pub fn of(network: &Network, ledger: &Ledger, made: Move) -> Spelling
        ensures spells_around { known (sealed network.now) made ≡ true → result.around.items ≡ take 512 (around_of (sealed network.now) ledger.now.held made) }
        ensures spells_core { known (sealed network.now) made ≡ true → result.core ≡ core_of (sealed network.now) ledger.now.held made }
    {
        let mut speller = Speller::new(ledger.lines(network.inputs()));
        let core = speller.spell(network, made);
        Spelling {
            around: speller.gates,
            core,
        }
    }

    // The gates around the core.
    pub fn around(&self) -> &[Gate]
        ensures are_around { result.now ≡ self.now.around.items }
        ensures is_at_most_512 { length result.now ≤ 512 }
    {
        self.around.as_slice()
    }

    pub fn core(&self) -> Option<Gate>
        ensures is_the_core { result ≡ self.now.core }
    {
        self.core
    }

    // How many gates it has in all.
    pub fn cost(&self) -> u64
        ensures counts_gates { result ≡ length (spelled self.now) }
        ensures is_at_most_1025 { result ≤ 1025 }
    {
        // no `From` from usize to u64
        let around = self.around().len() as u64;
        match self.core {
            Some(_) => 2 * around + 1,
            None => around,
        }
    }
}
