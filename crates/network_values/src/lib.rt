#![tactic(auto)]

// Tests of what networks evaluate to, over bits, words and polynomials. A test goes over a table of rows of its own.
#[cfg(test)]
mod forms_agree;
#[cfg(test)]
mod samples;
#[cfg(test)]
mod values_at_inputs;
