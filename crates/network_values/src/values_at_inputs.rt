use crate::samples::{identity, last_inverted, xor_and};
use evaluation::{evaluate, evaluate_word};
use polynomials::Polynomial;
use std::test::Fail;

// (x0 XOR x1) AND x2 at the words 0 to 7
const TRUTH: [u64; 8] = [0, 0, 0, 0, 0, 1, 1, 0];

#[test]
fn a_network_has_its_truth_table(rt: HostRuntime) -> Result<(), Fail> {
    let network = xor_and(rt.alloc())?;
    for (word, expected) in (0..8).zip(TRUTH) {
        assert_eq!(rt; evaluate_word(&network, rt.alloc(), word)?, expected);
    }
    Ok(())
}

#[test]
fn a_network_has_its_polynomial(rt: HostRuntime) -> Result<(), Fail> {
    let network = xor_and(rt.alloc())?;
    let variables = [Polynomial::new(2), Polynomial::new(4), Polynomial::new(16)];
    let outputs = evaluate(&network, rt.alloc(), &variables)?;
    assert_eq!(rt; outputs.len(), 1);
    assert_eq!(rt; outputs[0].coefficients(), 96);
    Ok(())
}

// What is shown, the inputs of a network whose output is the complement of the last, the inputs given, the output.
const GIVEN: [(&str, u16, &[bool], bool); 5] = [
    ("no input is given", 1, &[], true),
    ("the last input is missing", 3, &[true, true], true),
    (
        "the last input is there and 1",
        3,
        &[false, false, true],
        false,
    ),
    (
        "the last input is there and 0",
        3,
        &[true, true, false],
        true,
    ),
    (
        "a further input counts for nothing",
        3,
        &[true, true, false, true],
        true,
    ),
];

#[test]
fn missing_inputs_count_as_zero(rt: HostRuntime) -> Result<(), Fail> {
    for (shown, n, inputs, expected) in &GIVEN {
        let network = last_inverted(rt.alloc(), *n)?;
        let outputs = evaluate(&network, rt.alloc(), inputs)?;
        assert_eq!(rt; outputs.as_slice(), [*expected].as_slice(), "{shown}");
    }
    Ok(())
}

// What is shown, how many inputs and outputs, a word, and the outputs there.
const WORDS: [(&str, u16, u64, u64); 6] = [
    ("all of 64 bits", 64, u64::MAX, u64::MAX),
    (
        "the highest bit alone",
        64,
        0x8000_0000_0000_0000,
        0x8000_0000_0000_0000,
    ),
    (
        "bits in their order",
        64,
        0x0123_4567_89ab_cdef,
        0x0123_4567_89ab_cdef,
    ),
    (
        "63 inputs do not have the highest bit",
        63,
        u64::MAX,
        0x7fff_ffff_ffff_ffff,
    ),
    ("one input is the lowest bit", 1, 3, 1),
    ("one input of 0", 1, 2, 0),
];

#[test]
fn bit_i_of_a_word_is_input_i_and_output_i(rt: HostRuntime) -> Result<(), Fail> {
    for (shown, n, word, expected) in &WORDS {
        let network = identity(rt.alloc(), *n)?;
        assert_eq!(rt;
            evaluate_word(&network, rt.alloc(), *word)?,
            *expected,
            "{shown}"
        );
    }
    Ok(())
}
