// The coefficients of polynomials in six variables, 64 in a word.
ghost use Rattle.std.specs.Prelude.{◌≡◌, ◌<◌, true};
ghost use Rattle.polynomials.specs.Polynomials.{coefficients, same_coefficients, subset_sums, times};
ghost use Rattle.polynomials.specs.Steps.{add_without, contains};

// The sets with each variable: bit s of word v is whether the binary set s has variable v.
const SETS_WITH: [u64; 6] = [
    0xaaaa_aaaa_aaaa_aaaa,
    0xcccc_cccc_cccc_cccc,
    0xf0f0_f0f0_f0f0_f0f0,
    0xff00_ff00_ff00_ff00,
    0xffff_0000_ffff_0000,
    0xffff_ffff_0000_0000,
];

// Subset sums are the values at the points, so those of a product are the products of the factors' own.
pub(crate) fn sums_of_product(a: u64, b: u64) -> u64
    ensures has_the_product_as_subset_sums { subset_sums 6 (coefficients 6 result) ≡ times 6 (coefficients 6 a) (coefficients 6 b) }
{
    subset_sums(a) & subset_sums(b)
}

// The sums over the subsets of each set, one variable after the other.
#[tactic(auto, using(crate::proofs::Masks::row_has_its_sets))]
pub(crate) fn subset_sums(a: u64) -> u64
    ensures are_the_subset_sums { coefficients 6 result ≡ subset_sums 6 (coefficients 6 a) }
{
    let mut sums = a;
    for (variable, sets) in SETS_WITH.iter().enumerate() {
        sums = add_without(sums, variable, *sets);
    }
    sums
}

// To the coefficient of each set with the variable, adds that of the set without it.
fn add_without(a: u64, variable: usize, sets: u64) -> u64
    requires is_a_variable { variable < 6 }
    requires has_the_sets_with_it { same_coefficients 6 (coefficients 6 sets) (contains 6 variable) ≡ true }
    ensures adds_the_set_without { coefficients 6 result ≡ add_without 6 variable (coefficients 6 a) }
{
    a ^ ((a << (1u32 << variable)) & sets)
}
