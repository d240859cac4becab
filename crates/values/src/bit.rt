ghost use Rattle.std.specs.Prelude.{Bool};
ghost use Rattle.values.specs.Bits.{bits};

use crate::algebra::Algebra;

// One bit: sum is XOR, product is AND.
impl Algebra for bool {
    ghost Meaning = { Bool };

    ghost ring = { bits };

    ghost meaning = { λ b. b };

    fn zero() -> bool {
        false
    }

    fn one() -> bool {
        true
    }

    fn sum(self, other: bool) -> bool {
        self ^ other
    }

    fn product(self, other: bool) -> bool {
        self & other
    }

    fn same(self, other: bool) -> bool {
        self == other
    }
}
