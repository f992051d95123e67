// "Per step table, numbers come first (5)": whether a number passes the limit in what a step makes of a body.
ghost use Rattle.std.specs.Prelude.{◌≡◌, ◌||◌, ℕ, ◌≤◌, length};
ghost use Rattle.rules.specs.Sum.{Sum};
ghost use Rattle.rules.specs.Rule.{Test, Rule};
ghost use Rattle.rules.specs.Literals.{some_literal};
ghost use Rattle.rules.specs.Steps.{bounds as bounds_of, disjunction as disjunction_of};
ghost use Rattle.rules.specs.Eliminate.{over_limit, most_period};
ghost use Rattle.rules.specs.Calls.{words as words_of};
ghost use Rattle.bodies.specs.Body.{BodyOf, SomeBody, BoundsAt};
ghost use Rattle.literals.specs.Literal.{LiteralAt, SomeLiteral};
ghost use Rattle.literals.specs.Changes.{Usable, change_of, put_of};
ghost use Rattle.walks.specs.Walk.{changed_by};
ghost use Rattle.steps.specs.Numbers.{at_limit, SomeBounds};

use crate::sums;
use bodies::cursor::Literals;
use literals::change::Change;
use literals::{change, literal, row};
use tables::kind::Kind;
use tables::words;

// Whether c of the literal whose body starts these words is at the limit.
fn constant_at_limit(bodies: &[u8]) -> bool
    requires { SomeLiteral (words_of bodies.now) }
    ensures { (n : ℕ) (t : Test) (s : Sum) → LiteralAt (words_of bodies.now) n t s
        → result ≡ at_limit t s }
{
    let c = words::get(bodies, literal::start(Kind::at(bodies, 0)));
    c.unsigned_abs() as usize == row::LIMIT
}

// Whether that of some literal of a body is. Step 1 adds one to c or to −c, and makes no other number greater: where
// none is at the limit, none passes it there. A loop like that of `over`, whose question is another: one loop over a
// closure would be no shorter.
pub fn some_at_limit(bodies: &[u8], end: usize) -> bool
    requires { SomeBody (words_of bodies.now) end }
    ensures { (n : ℕ) (a : Rule) → BodyOf (words_of bodies.now) end n a
        → result ≡ some_literal at_limit a }
{
    for place in Literals::of(bodies, end) {
        if constant_at_limit(&bodies[place * 4..]) {
            return true;
        }
    }
    false
}

// Whether one does in a body whose literals are changed.
pub fn over(bodies: &[u8], end: usize, change: Change) -> bool
    requires { SomeBody (words_of bodies.now) end × Usable (change_of change) (put_of change) }
    ensures { (n : ℕ) (a : Rule) → BodyOf (words_of bodies.now) end n a
        → result ≡ some_literal over_limit (changed_by change.entry a) }
{
    for place in Literals::of(bodies, end) {
        if change::over(&bodies[place * 4..], change) {
            return true;
        }
    }
    false
}

// Whether one does after the one change or after the other.
fn either_over(bodies: &[u8], end: usize, first: Change, last: Change) -> bool
    requires { SomeBody (words_of bodies.now) end × Usable (change_of first) (put_of first)
        × Usable (change_of last) (put_of last) }
    ensures { (n : ℕ) (a : Rule) → BodyOf (words_of bodies.now) end n a
        → result ≡ (some_literal over_limit (changed_by first.entry a)
        || some_literal over_limit (changed_by last.entry a)) }
{
    over(bodies, end, first) || over(bodies, end, last)
}

// Whether one does in a disjunct. A number is linear in j, so those at j = 1 and at j = P tell; for each bound, and for
// none.
pub fn disjuncts_over(bodies: &[u8], end: usize, x: usize, period: usize, places: &[u32]) -> bool
    requires { SomeBounds (words_of bodies.now) end x places.now × (1 ≤ x) × (x ≤ 6)
        × (1 ≤ period) × (period ≤ most_period) }
    ensures { (n : ℕ) (a : Rule) → BodyOf (words_of bodies.now) end n a
        → BoundsAt (words_of bodies.now) x places.now (length places.now) (bounds_of x a)
        → result ≡ some_literal over_limit (disjunction_of period x a) }
{
    let first = sums::numeral(1);
    let last = sums::numeral(period);
    if either_over(bodies, end, Change::Far(x, &first), Change::Far(x, &last)) {
        return true;
    }
    for &p in places {
        let first = sums::above(bodies, p as usize, x, 1);
        let last = sums::above(bodies, p as usize, x, period);
        if either_over(bodies, end, Change::Full(x, &first), Change::Full(x, &last)) {
            return true;
        }
    }
    false
}
