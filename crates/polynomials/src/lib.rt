// Polynomials over the field of two elements in six variables.
#![tactic(auto)]

mod polynomial;
mod words;

pub use polynomial::Polynomial;
