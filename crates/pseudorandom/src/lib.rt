// A linear congruential generator, for tests and benchmarks that can be repeated.
#![tactic(auto)]

mod generator;

pub use generator::Generator;
