// A million products of polynomials. Each, with its second factor added so that it does not become zero, is a factor of the next.
#![tactic(auto)]

use polynomials::Polynomial;
use std::io;
use values::Algebra;

fn main(rt: HostRuntime) -> io::Result<()> {
    let mut product = Polynomial::new(0x0123_4567_89ab_cdef);
    let mut factor: u64 = 0x9e37_79b9_7f4a_7c15;
    for _ in 0..1_000_000 {
        factor = factor.wrapping_mul(0x5851_f42d_4c95_7f2d).wrapping_add(1);
        product = product
            .product(Polynomial::new(factor))
            .sum(Polynomial::new(factor));
    }
    println!(rt; "{}", product.coefficients())
}
