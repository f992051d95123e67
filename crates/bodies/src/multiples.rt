// D and P: least common multiples over the literals of a body, as far as they are within 4,096.
ghost use Rattle.std.specs.Prelude.{◌≡◌, ℕ, ◌≤◌, IfSome};
ghost use Rattle.whole.specs.Multiples.{lcms};
ghost use Rattle.rules.specs.Literals.{gather};
ghost use Rattle.rules.specs.Steps.{size_of, divisor_of, common_factor as common_factor_of, period as period_of};
ghost use Rattle.rules.specs.Calls.{words as words_of};
ghost use Rattle.bodies.specs.Body.{SomeBody, WhicheverRule, Bounded};
ghost use Rattle.bodies.specs.Cursor.{WhicheverLiteral, SomeLiteral};
ghost use Rattle.bodies.specs.Multiples.{brought};

use crate::cursor::Literals;
use tables::kind::Kind;
use tables::words;

// "Over the limit": Steps.most_period.
const MOST: u32 = 4096;

// The size of the factor of setting x in the literal at this place, 1 where it is zero. Its sum is the last seven words
// of its body.
fn size(bodies: &[u8], place: usize, x: usize) -> u32
    requires { ((end : ℕ) × SomeLiteral (words_of bodies.now) place end) × (x ≤ 6) }
    ensures { (end : ℕ)
        → WhicheverLiteral (words_of bodies.now) place end (λ t s ls. result ≡ lcms (size_of x t s)) }
{
    let width = Kind::at(bodies, place).width();
    words::get(bodies, place + (width - 7) + x)
        .unsigned_abs()
        .max(1)
}

// Its divisor, 1 where it has none.
fn divisor(bodies: &[u8], place: usize) -> u32
    requires { (end : ℕ) × SomeLiteral (words_of bodies.now) place end }
    ensures { (end : ℕ)
        → WhicheverLiteral (words_of bodies.now) place end (λ t s ls. result ≡ lcms (divisor_of t s)) }
{
    match Kind::at(bodies, place) {
        Kind::Divisible | Kind::Indivisible => words::natural(bodies, place + 1) as u32,
        _ => 1,
    }
}

// What it brings to the multiple: for a setting the size of its factor, for none its divisor.
fn part(bodies: &[u8], place: usize, setting: Option<usize>) -> u32
    requires { ((end : ℕ) × SomeLiteral (words_of bodies.now) place end) × IfSome setting (λ x. x ≤ 6) }
    ensures { (end : ℕ)
        → WhicheverLiteral (words_of bodies.now) place end (λ t s ls. result ≡ lcms (brought setting t s)) }
{
    match setting {
        Some(x) => size(bodies, place, x),
        None => divisor(bodies, place),
    }
}

// The least common multiple of what the literals bring. A try_fold was tried: what a call in its closure ensures can be
// cited only under names that may change, so its proof did not close.
fn multiple(bodies: &[u8], end: usize, setting: Option<usize>) -> Option<u32>
    requires { SomeBody (words_of bodies.now) end × IfSome setting (λ x. x ≤ 6) }
    ensures { WhicheverRule (words_of bodies.now) end
        (λ a. Bounded (lcms (gather (brought setting) a)) result) }
{
    let mut m: u32 = 1;
    for place in Literals::of(bodies, end) {
        m = whole::lcm(m, part(bodies, place, setting), MOST)?;
    }
    Some(m)
}

// "D is the least common multiple of the sizes of all nonzero x factors, 1 if none." The setting x is a number, here as
// in the steps, and its range a clause: a narrower type would ask more of a caller.
pub fn common_factor(bodies: &[u8], end: usize, x: usize) -> Option<u32>
    requires { SomeBody (words_of bodies.now) end × (1 ≤ x) × (x ≤ 6) }
    ensures { WhicheverRule (words_of bodies.now) end (λ a. Bounded (common_factor_of x a) result) }
{
    multiple(bodies, end, Some(x))
}

// "P is the least common multiple of the divisors of all divisibility literals in the body, 1 if none."
pub fn period(bodies: &[u8], end: usize) -> Option<u32>
    requires { SomeBody (words_of bodies.now) end }
    ensures { WhicheverRule (words_of bodies.now) end (λ a. Bounded (period_of a) result) }
{
    multiple(bodies, end, None)
}
