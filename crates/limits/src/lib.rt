#![tactic(auto)]

// Tests of every number that offers, records and texts are refused with, on both sides of its range. A test goes over a
// table of rows of its own type.
#[cfg(test)]
mod offers;
#[cfg(test)]
mod records;
#[cfg(test)]
mod texts;
