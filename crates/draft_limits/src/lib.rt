#![tactic(auto)]

// Tests of every number that a draft's calls refuse with, on both sides of its range. A test goes over a
// table of rows of its own type.
#[cfg(test)]
mod drafts;
