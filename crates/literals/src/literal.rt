// Whether a literal of a table holds at six values.
ghost use Rattle.std.specs.Prelude.{◌≡◌, ℕ, ◌+◌, ◌-◌, ◌*◌, ◌^◌, ◌<◌, ◌≤◌, T, length, get_or, take, drop};
ghost use Rattle.std.specs.Prelude.{pos, nat_abs, ◌+ℤ◌, ◌*ℤ◌};
ghost use Rattle.whole.specs.Divides.{divides as divides_test};
ghost use Rattle.rules.specs.Sum.{Sum, limit, all_within, value as value_of};
ghost use Rattle.rules.specs.Rule.{Test, passes as passes_test};
ghost use Rattle.rules.specs.Match.{most_value, choice};
ghost use Rattle.rules.specs.Calls.{words as words_of};
ghost use Rattle.tables.specs.Kinds.{number_of};
ghost use Rattle.tables.specs.Reads.{test_kind};
ghost use Rattle.literals.specs.Literal.{most_term, start_of, Marked, SomeTest, LiteralAt, SomeLiteral};

use tables::kind::Kind;
use tables::words;

// The term of setting v in the sum from word `at` on, and x, which the terms behind it add up to. The term of c is that
// of v = 0 and s = 1.
fn plus(b: &[u8], at: usize, v: usize, s: i32, x: i64) -> i64
    requires { (at + 7 ≤ length (words_of b.now)) × (v < 7)
        × (nat_abs s ≤ most_value) × (nat_abs x ≤ (6 - v) * most_term) }
    ensures { (result ≡ get_or (words_of b.now) (at + v) (pos 0) *ℤ s +ℤ x)
        × (nat_abs result ≤ (7 - v) * most_term) }
{
    let a = words::get(b, at + v);
    a as i64 * s as i64 + x
}

// The value at these six of the sum whose seven words stand from word `at` on. The last term is added first, as the
// definition has it.
pub fn value(b: &[u8], at: usize, values: &[i32; 6]) -> i64
    requires at_in_bounds { at + 7 ≤ length (words_of b.now) }
    requires t { T (all_within most_value values.now) }
    ensures { (result ≡ value_of (take 7 (drop at (words_of b.now))) (choice values.now))
        × (nat_abs result < 2 ^ 63) }
{
    let mut x = 0;
    for v in (0..6).rev() {
        x = plus(b, at, v + 1, values[v], x);
    }
    plus(b, at, 0, 1, x)
}

// Whether k divides z.
pub fn divides(k: usize, z: i64) -> bool
    requires { (1 ≤ k) × (k ≤ limit) × (nat_abs z < 2 ^ 63) }
    ensures { result ≡ divides_test k z }
{
    z % k as i64 == 0
}

// Whether the test of this kind, with this divisor, passes at z. A test with no divisor does not look at k. Two kinds
// are told apart before the division and two behind it: one jump by four kinds was tried, and takes twice as long.
pub fn passes(kind: Kind, k: usize, z: i64) -> bool
    requires { SomeTest (number_of kind) k × (nat_abs z < 2 ^ 63) }
    ensures { (t : Test) → Marked (number_of kind) k t → result ≡ passes_test t z }
{
    match kind {
        Kind::Positive => 0 < z,
        Kind::Zero => z == 0,
        _ => {
            let divided = divides(k, z);
            match kind {
                Kind::Divisible => divided,
                _ => !divided,
            }
        }
    }
}

// Where T starts in the body of a literal of this kind.
pub fn start(kind: Kind) -> usize
    ensures { (t : Test) → number_of kind ≡ test_kind t → result ≡ start_of t }
{
    match kind {
        Kind::Divisible | Kind::Indivisible => 2,
        _ => 1,
    }
}

// Whether the literal whose body starts these words holds at these six values.
pub fn holds(b: &[u8], values: &[i32; 6]) -> bool
    requires { SomeLiteral (words_of b.now) × T (all_within most_value values.now) }
    ensures { (n : ℕ) (t : Test) (s : Sum) → LiteralAt (words_of b.now) n t s
        → result ≡ passes_test t (value_of s (choice values.now)) }
{
    let kind = Kind::at(b, 0);
    let k = words::natural(b, 1);
    passes(kind, k, value(b, start(kind), values))
}
