#![tactic(auto)]

// Tests of every number that sessions and compiling refuse with, on both sides of its range. A test goes over a
// table of rows of its own type.
#[cfg(test)]
mod compiles;
#[cfg(test)]
mod sessions;
#[cfg(test)]
mod support;
