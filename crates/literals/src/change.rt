// A literal of a table as a step changes it: its numbers, and whether one passes the limit.
ghost use Rattle.std.specs.Prelude.{◌≡◌, ℕ, ◌+◌, ◌≤◌, nat_abs, length};
ghost use Rattle.rules.specs.Sum.{Sum, factor as factor_of};
ghost use Rattle.rules.specs.Rule.{Test};
ghost use Rattle.rules.specs.Literals.{some_literal};
ghost use Rattle.rules.specs.Eliminate.{over_limit};
ghost use Rattle.rules.specs.Calls.{words as words_of};
ghost use Rattle.literals.specs.Literal.{start_of, LiteralAt, SomeLiteral};
ghost use Rattle.literals.specs.Rows.{most_word, Tame};
ghost use Rattle.literals.specs.Changes.{Far, change_of, put_of, becomes, InRange, Fair, Usable};
ghost use Rattle.literals.specs.Changes.{changed_sum, changed_test, divisor_or_none};
ghost use Rattle.literals.specs.Changes.{Settles, row_of as row_for, SomeChanged};

use crate::row::Row;
use crate::{literal, row};
use tables::kind::Kind;
use tables::words;

// What a step does to every literal, and no step to be run: nothing; it scales it to the common factor D for the
// setting x; it puts a sum in for x, in the far-left body or in the full one.
#[derive(Clone, Copy)]
pub enum Change<'a> {
    Same,
    Scaled(usize, usize),
    Far(usize, &'a [i64; 7]),
    Full(usize, &'a [i64; 7]),
}

// Where T starts in the literal whose body starts these words. A literal's body is a slice, and what is known of it one
// word, SomeLiteral: a struct of the two would take no parameter and no clause away.
fn sum_at(bodies: &[u8]) -> usize
    requires { SomeLiteral (words_of bodies.now) }
    ensures { ((n : ℕ) (t : Test) (s : Sum) → LiteralAt (words_of bodies.now) n t s → result ≡ start_of t)
        × (result + 7 ≤ length (words_of bodies.now)) }
{
    literal::start(Kind::at(bodies, 0))
}

// The factor of setting x in it.
fn factor(bodies: &[u8], x: usize) -> i64
    requires { SomeLiteral (words_of bodies.now) × (x ≤ 6) }
    ensures { ((n : ℕ) (t : Test) (s : Sum) → LiteralAt (words_of bodies.now) n t s
        → result ≡ factor_of x s)
        × (nat_abs result ≤ most_word) }
{
    row::term(bodies, sum_at(bodies) + x)
}

// The truth value that the far-left body has for the literal, if it has one. "The far-left body has true for 0 < −x+r,
// false for 0 < x+r."
pub fn far_left(bodies: &[u8], x: usize) -> Option<bool>
    requires { SomeLiteral (words_of bodies.now) × InRange x }
    ensures { (n : ℕ) (t : Test) (s : Sum) → LiteralAt (words_of bodies.now) n t s
        → Settles (Far x) t s result }
{
    let Kind::Positive = Kind::at(bodies, 0) else {
        return None;
    };
    match factor(bodies, x) {
        1 => Some(false),
        -1 => Some(true),
        _ => None,
    }
}

// The truth value that the change makes of it, if it makes one.
pub fn far(bodies: &[u8], change: Change) -> Option<bool>
    requires { SomeLiteral (words_of bodies.now) × Fair (change_of change) }
    ensures { (n : ℕ) (t : Test) (s : Sum) → LiteralAt (words_of bodies.now) n t s
        → Settles (change_of change.entry) t s result }
{
    match change {
        Change::Far(x, _) => far_left(bodies, x),
        _ => None,
    }
}

// What the change does to each word of T.
fn row_of<'a>(bodies: &[u8], change: Change<'a>) -> Row<'a>
    requires { SomeLiteral (words_of bodies.now) × Usable (change_of change) (put_of change) }
    ensures { ((n : ℕ) (t : Test) (s : Sum) → LiteralAt (words_of bodies.now) n t s
        → result ≡ row_for change.entry s)
        × Tame result }
{
    match change {
        Change::Same => Row::Times(7, 0, 1),
        Change::Scaled(common, x) => {
            let f = factor(bodies, x);
            Row::Times(x, f.signum(), row::multiplier(common, f))
        }
        Change::Far(x, u) => Row::Plus(x, factor(bodies, x), u),
        Change::Full(x, u) => Row::Plus(x, factor(bodies, x), u),
    }
}

// The divisor after the change, 0 where the test has none: it goes with the kind, which says whether it is read, so an
// Option would tell no more. "Multiply each literal that has x (its divisor too)".
pub fn divisor(bodies: &[u8], change: Change) -> usize
    requires { SomeLiteral (words_of bodies.now) × Fair (change_of change) }
    ensures { (n : ℕ) (t : Test) (s : Sum) → LiteralAt (words_of bodies.now) n t s
        → result ≡ divisor_or_none (changed_test (change_of change.entry) s t) }
{
    if sum_at(bodies) == 1 {
        return 0;
    }
    let k = words::natural(bodies, 1);
    match change {
        Change::Scaled(common, x) => row::multiplier(common, factor(bodies, x)) * k,
        _ => k,
    }
}

// Whether a number of the literal whose body starts these words passes the limit, once it is changed.
pub fn over(bodies: &[u8], change: Change) -> bool
    requires { SomeLiteral (words_of bodies.now) × Usable (change_of change) (put_of change) }
    ensures { (n : ℕ) (t : Test) (s : Sum) → LiteralAt (words_of bodies.now) n t s
        → result ≡ some_literal over_limit (becomes (change_of change.entry) (put_of change.entry) t s) }
{
    if far(bodies, change).is_some() {
        return false;
    }
    if row::LIMIT < divisor(bodies, change) {
        return true;
    }
    !row::all_within(bodies, sum_at(bodies), row_of(bodies, change))
}

// The seven words of T after the change.
pub fn sum(bodies: &[u8], change: Change) -> [i32; 7]
    requires { SomeChanged (words_of bodies.now) (change_of change) (put_of change) }
    ensures { (n : ℕ) (t : Test) (s : Sum) → LiteralAt (words_of bodies.now) n t s
        → result ≡ changed_sum (change_of change.entry) (put_of change.entry) s }
{
    row::made(bodies, sum_at(bodies), row_of(bodies, change))
}
