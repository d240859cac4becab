// Networks of XOR, AND and INV gates: drafts that grow, and sealed networks.
#![tactic(auto)]

mod draft;
mod lists;
mod network;
mod wire;

pub use draft::Draft;
pub use network::Network;
pub use wire::{Gate, Node, Step, Wire};
