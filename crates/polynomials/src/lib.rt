// Blocks as polynomials over the two-element field, multiplied modulo x^128 + x^7 + x^2 + x + 1. The first bit of a block is
// the coefficient of x^127. No step branches on a block, so that the time it takes tells nothing about one.
#![tactic(auto)]

ghost use Rattle.std.specs.Prelude.{◌≡◌};
ghost use Rattle.polynomials.specs.Laws.{ProductLaws, Ring};
ghost use Rattle.polynomials.specs.Polynomials.{product, times_x};

// x^7 + x^2 + x + 1, which is x^128 modulo the modulus.
const CARRY: u128 = 135;

// x times a block. The highest bit chooses by a product whether the carry is added.
pub fn times_x(a: u128) -> u128
    ensures { result ≡ times_x a }
{
    (a << 1) ^ ((a >> 127) * CARRY)
}

// The product of two blocks: the sum of x^i times a, for each x^i that b has. The further clauses are the theorem on what
// the product is.
pub fn multiply(a: u128, b: u128) -> u128
    ensures value { result ≡ product a b }
    ensures ring { Ring }
    ensures laws { ProductLaws }
{
    let mut sum: u128 = 0;
    let mut shifted = a;
    let mut rest = b;
    for _ in 0..128u32 {
        sum ^= (rest & 1) * shifted;
        shifted = times_x(shifted);
        rest >>= 1;
    }
    sum
}
