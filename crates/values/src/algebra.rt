ghost use Rattle.std.specs.Prelude.{◌≡◌};
ghost use Rattle.values.specs.Rings.{BooleanRing};

// A value algebra: values that stand for the elements of a Boolean ring.
pub trait Algebra: Copy {
    // What values mean, the ring of meanings with its laws, and the meaning of a value.
    ghost Meaning: { Type 0 };

    ghost ring: { BooleanRing Meaning };

    ghost meaning: { Self → Meaning };

    fn zero() -> Self
        ensures means_zero { meaning result ≡ ring.zero };

    fn one() -> Self
        ensures means_one { meaning result ≡ ring.one };

    fn sum(self, other: Self) -> Self
        ensures means_the_sum { meaning result ≡ ring.sum (meaning self) (meaning other) };

    fn product(self, other: Self) -> Self
        ensures means_the_product { meaning result ≡ ring.product (meaning self) (meaning other) };

    // Whether two values mean the same. Not `==`, since several values of an algebra may mean the same.
    fn same(self, other: Self) -> bool
        ensures tells_equal_meanings { result ≡ ring.same (meaning self) (meaning other) };
}
