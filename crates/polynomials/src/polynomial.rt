ghost use Rattle.std.specs.Prelude.{◌≡◌};
ghost use Rattle.polynomials.specs.PolynomialLaws.{polynomials};
ghost use Rattle.polynomials.specs.Polynomials.{Coefficients, coefficients as coefficients_of};

use crate::words::{subset_sums, sums_of_product};
use values::Algebra;

// A polynomial in six variables: bit s is the coefficient of the product of the variables in the binary set s.
#[derive(Clone, Copy, PartialEq, Eq, Debug)]
pub struct Polynomial {
    coefficients: u64,
}

impl Polynomial {
    pub fn new(coefficients: u64) -> Polynomial
        ensures has_these_coefficients { result.coefficients ≡ coefficients }
    {
        Polynomial { coefficients }
    }

    pub fn coefficients(self) -> u64
        ensures are_its_coefficients { result ≡ self.coefficients }
    {
        self.coefficients
    }
}

impl Algebra for Polynomial {
    ghost Meaning = { Coefficients 6 };

    ghost ring = { polynomials 6 };

    ghost meaning = { λ p. coefficients_of 6 p.coefficients };

    fn zero() -> Polynomial {
        Polynomial::new(0)
    }

    fn one() -> Polynomial {
        Polynomial::new(1)
    }

    #[tactic(auto, using(crate::proofs::Products::is_the_sum))]
    fn sum(self, other: Polynomial) -> Polynomial {
        Polynomial::new(self.coefficients ^ other.coefficients)
    }

    // The subset sums of subset sums are the coefficients.
    fn product(self, other: Polynomial) -> Polynomial {
        let values = sums_of_product(self.coefficients, other.coefficients);
        let coefficients = subset_sums(values);
        Polynomial::new(coefficients)
    }

    #[tactic(auto, using(crate::proofs::Numbers::tells_same_coefficients))]
    fn same(self, other: Polynomial) -> bool {
        self == other
    }
}
