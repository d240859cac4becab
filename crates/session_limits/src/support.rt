// What the tests share: networks as texts, and answers with numbers.

// Output 0 is AND of XOR 0 1 and input 2.
pub(crate) const SAMPLE: &str = "2 5 1 3 1 1 2 1 0 1 3 XOR 2 1 3 2 4 AND";

// Of three inputs, output 0 is the last.
pub(crate) const WIRE: &str = "0 3 1 3 1 1";

// Node 0 is AND 0 1, node 1 is AND of node 0 and input 2; node 1 is output 0, and node 0 is output 1.
pub(crate) const TOWER: &str = "2 5 1 3 1 2 2 1 0 1 4 AND 2 1 4 2 3 AND";

// Whether a session's call was accepted, or the number of its refusal.
pub(crate) type Answer = Result<(), u8>;
