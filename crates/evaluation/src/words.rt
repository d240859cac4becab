// The value of a network at words of bits, taken apart and put together here: the library has no bits of a word.
ghost use Rattle.std.specs.Prelude.{◌≡◌, ℕ, ◌<◌, ◌≤◌, false, length, IfOk, vec_len, slice_index_or};
ghost use Rattle.values.specs.Bits.{bits};
ghost use Rattle.values.specs.Words.{bit, word_of};
ghost use Rattle.network.specs.Networks.{sealed};
ghost use Rattle.network.specs.Values.{output_values};

use crate::chain::evaluate;
use network::Network;
use std::alloc::{AllocError, Global};

// Bit i of a word.
fn bit_of(word: u64, i: u32) -> bool
    requires inside { i < 64 }
    ensures is_bit_i { result ≡ bit word i }
{
    (word >> i) % 2 == 1
}

// The bits of a word, the lowest first.
fn unpacked(heap: Global, word: u64) -> Result<Vec<bool>, AllocError>
    ensures are_its_bits { IfOk result (λ v. (vec_len v ≡ 64) × ((i : ℕ) → i < 64 → slice_index_or v.items i false ≡ bit word i)) }
{
    (0..64).map(|i| bit_of(word, i)).collect(heap)
}

// The word of these bits, the lowest first.
fn packed(flags: &[bool]) -> u64
    requires one_word { length flags.now ≤ 64 }
    ensures is_their_word { result ≡ word_of flags.now }
{
    let mut word = 0;
    for flag in flags.iter().rev() {
        word = u64::from(*flag) + 2 * word;
    }
    word
}

// The outputs at a word of inputs: bit i is input i, and bit j of the answer is output j.
pub fn evaluate_word(network: &Network, heap: Global, word: u64) -> Result<u64, AllocError>
    ensures is_the_word_of_outputs { IfOk result (λ v. v ≡ word_of (output_values bits (bit word) (sealed network.now))) }
{
    let inputs = unpacked(heap, word)?;
    let outputs = evaluate(network, heap, &inputs)?;
    Ok(packed(&outputs))
}
