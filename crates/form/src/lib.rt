// Linear forms: sums of basis elements and a constant.
#![tactic(auto)]

mod form;

pub use form::Form;
