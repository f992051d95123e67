// A test at 64 numbers in a row, in the bits of a mask: bit k says whether it passes at the k-th.
ghost use Rattle.std.specs.Prelude.{◌≡◌, ℕ, ◌+◌, ◌-◌, ◌%◌, ◌^◌, ◌<◌, ◌≤◌, max, eqb, pos, nat_abs, ◌+ℤ◌, ◌-ℤ◌};
ghost use Rattle.std.specs.Int.Signed.{lt_z};
ghost use Rattle.whole.specs.Divides.{Divides, divides};
ghost use Rattle.rules.specs.Sum.{limit};
ghost use Rattle.judging.specs.Judging.{bit, flag};
ghost use Rattle.judging.specs.Masks.{Mask, Placed};
ghost use Rattle.judging.specs.Shifts.{most_moved};

// Every bit.
pub const ONES: u64 = u64::MAX;

// Every bit the other way.
pub fn opposite(m: u64) -> u64
    ensures { (k : ℕ) → k < 64 → bit result k ≡ 1 - bit m k }
{
    !m
}

// The same bit throughout.
pub fn throughout(b: bool) -> u64
    ensures { Mask result (λ k. b) }
{
    if b {
        return ONES;
    }
    0
}

// The bits of m moved up by p, whatever p is.
fn placed(m: u64, p: u64) -> u64
    ensures { Placed m p result }
{
    if 64 <= p {
        return 0;
    }
    m << p
}

// The bits k with 0 < c + k.
pub fn rising(c: i64) -> u64
    requires { nat_abs c ≤ most_moved + 1 }
    ensures { Mask result (λ k. lt_z (pos 0) (c +ℤ pos k)) }
{
    if 0 < c {
        return ONES;
    }
    placed(ONES, (1 - c) as u64)
}

// The bits k with 0 < c - k, which is not 0 < 1 - c + k.
pub fn falling(c: i64) -> u64
    requires { nat_abs c ≤ most_moved }
    ensures { Mask result (λ k. lt_z (pos 0) (c -ℤ pos k)) }
{
    opposite(rising(1 - c))
}

// The bits k that d divides, by doubling: at most six turns.
fn comb(d: u64) -> u64
    requires { (1 ≤ d) × (d ≤ limit) }
    ensures { Mask result (λ k. eqb (k % d) 0) }
{
    let mut m = 1;
    let mut w = d;
    while w < 64 {
        m |= m << w;
        w += w;
    }
    m
}

// How far it is from c up to the next multiple of d.
fn distance(d: u64, c: i64) -> u64
    requires { (1 ≤ d) × (d ≤ limit) × (nat_abs c < 2 ^ 63) }
    ensures { (result < d) × Divides d (c +ℤ pos result) }
{
    (-c).rem_euclid(d as i64) as u64
}

// The bits k at which d divides c + k.
#[inline(always)]
pub fn multiples(d: u64, c: i64) -> u64
    requires { (1 ≤ d) × (d ≤ limit) × (nat_abs c < 2 ^ 63) }
    ensures { Mask result (λ k. divides d (c +ℤ pos k)) }
{
    placed(comb(d), distance(d, c))
}

// m, and bit i where b says so.
pub fn with(m: u64, i: u64, b: bool) -> u64
    requires { i < 64 }
    ensures { (k : ℕ) → k < 64
        → (k ≡ i → bit result k ≡ max (bit m k) (flag b)) × (¬ (k ≡ i) → bit result k ≡ bit m k) }
{
    if b {
        return m | 1 << i;
    }
    m
}
