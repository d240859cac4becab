// Value algebras: what circuits and networks can be evaluated over.
#![tactic(auto)]

mod algebra;
mod bit;

pub use algebra::Algebra;
