// Whole numbers: the laws of specs/ and proofs/, and the two functions that the steps call.
#![tactic(auto)]

ghost use Rattle.whole.specs.Multiples.{GreatestCommonDivisor};
ghost use Rattle.whole.specs.Bounded.{BoundedMultiple};

// The greatest common divisor, by Euclid's algorithm; with a 0 it is the other number. Its rounds count no index.
pub fn gcd(a: u32, b: u32) -> u32
    ensures { GreatestCommonDivisor a b result }
{
    let mut x = a;
    let mut y = b;
    while y != 0 {
        let rest = x % y;
        x = y;
        y = rest;
    }
    x
}

// The least common multiple if it is at most the limit, or none; with a 0 it is 0. The product of two u32 fits a u64.
pub fn lcm(a: u32, b: u32, limit: u32) -> Option<u32>
    ensures { BoundedMultiple a b limit result }
{
    let g = gcd(a, b);
    if g == 0 {
        return Some(0);
    }
    let m = a as u64 * (b / g) as u64;
    if m <= limit as u64 {
        Some(m as u32)
    } else {
        None
    }
}
