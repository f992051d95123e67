// The words of a sum as a step changes them, in 64 bits.
ghost use Rattle.std.specs.Prelude.{◌≡◌, not, cond, ◌+◌, ◌/◌, ◌^◌, ◌<◌, ◌≤◌, eqb, length, get_or};
ghost use Rattle.std.specs.Prelude.{pos, nat_abs, ◌+ℤ◌, ◌*ℤ◌};
ghost use Rattle.std.specs.Int.Signed.{mag};
ghost use Rattle.whole.specs.Integers.{eq_ℤ, within as within_of};
ghost use Rattle.rules.specs.Sum.{Sum, limit, all_within};
ghost use Rattle.rules.specs.Steps.{sign as sign_of};
ghost use Rattle.rules.specs.Eliminate.{most_period};
ghost use Rattle.rules.specs.Calls.{words as words_of};
ghost use Rattle.literals.specs.Rows.{row_word, most_word, most_put, Makes, Readable, SomeWithin};

use tables::words;

// "c and the a's lie within ±2,147,483,647", and a divisor too.
pub const LIMIT: usize = 2147483647;

// What becomes of every word, and no step to be run. Times(x, sign, m): that of x is the sign, any other is taken m
// times. Plus(x, f, u): that of x is 0, any other stays, and then f times the word of u is added.
#[derive(Clone, Copy)]
pub enum Row<'a> {
    Times(usize, i64, usize),
    Plus(usize, i64, &'a [i64; 7]),
}

// What a literal with the factor f is multiplied by, so that the factor comes to the common one.
pub fn multiplier(common: usize, f: i64) -> usize
    requires { (nat_abs f ≤ most_word) × (common ≤ most_period) }
    ensures { (result ≡ cond (not (eq_ℤ f (pos 0))) (common / nat_abs f) 1) × (result ≤ most_period) }
{
    if f == 0 {
        return 1;
    }
    common / f.unsigned_abs() as usize
}

// Word i of the table.
pub fn term(b: &[u8], i: usize) -> i64
    requires { i < length (words_of b.now) }
    ensures { (result ≡ get_or (words_of b.now) i (pos 0)) × (mag result < 2 ^ 31) }
{
    words::get(b, i) as i64
}

fn times(a: i64, i: usize, x: usize, sign: i64, m: usize) -> i64
    requires { (mag a < 2 ^ 31) × (m ≤ most_period) }
    ensures { result ≡ cond (eqb i x) sign (pos m *ℤ a) }
{
    if i == x {
        return sign;
    }
    m as i64 * a
}

fn plus(a: i64, i: usize, x: usize, f: i64, b: i64) -> i64
    requires { (mag a < 2 ^ 31) × (nat_abs f ≤ most_word) × (nat_abs b ≤ most_put) }
    ensures { result ≡ cond (eqb i x) (pos 0) a +ℤ f *ℤ b }
{
    if i == x {
        return f * b;
    }
    a + f * b
}

// Word i of what becomes of the sum whose seven words stand from word `at` on.
fn word(b: &[u8], at: usize, i: usize, row: Row) -> i64
    requires { Readable row (words_of b.now) at × (i < 7) }
    ensures { result ≡ row_word row.entry i (get_or (words_of b.now) (at + i) (pos 0)) }
{
    let a = term(b, at + i);
    match row {
        Row::Times(x, sign, m) => times(a, i, x, sign, m),
        Row::Plus(x, f, u) => plus(a, i, x, f, u[i]),
    }
}

// Whether a number lies within the limit.
fn within(z: i64) -> bool
    ensures { result ≡ within_of limit z }
{
    z.unsigned_abs() <= LIMIT as u64
}

// Whether all seven words do.
pub fn all_within(b: &[u8], at: usize, row: Row) -> bool
    requires { Readable row (words_of b.now) at }
    ensures { (z : Sum) → Makes row.entry (words_of b.now) at z
        → result ≡ all_within limit z }
{
    for i in 0..7 {
        if !within(word(b, at, i, row)) {
            return false;
        }
    }
    true
}

// All seven, where they do.
pub fn made(b: &[u8], at: usize, row: Row) -> [i32; 7]
    requires { Readable row (words_of b.now) at × SomeWithin row (words_of b.now) at }
    ensures { (z : Sum) → Makes row.entry (words_of b.now) at z → result ≡ z }
{
    let mut made = [0; 7];
    for (i, m) in made.iter_mut().enumerate() {
        *m = word(b, at, i, row) as i32;
    }
    made
}
