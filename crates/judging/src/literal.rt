// A literal at 64 values of x at once. Most keep a setting, and are open throughout: that is seen first. Else T is a
// number at each value, which grows by the factor of x from one to the next, and its test is one mask.
ghost use Rattle.std.specs.Prelude.{◌≡◌, false, not, MatchOption, ℕ, ◌+◌, ◌<◌, ◌≤◌, pos, nat_abs, ◌+ℤ◌, ◌*ℤ◌, get_or};
ghost use Rattle.rules.specs.Sum.{Sum, add, number, no_factors};
ghost use Rattle.rules.specs.Rule.{Test, Constant, Literal, passes as passes_test};
ghost use Rattle.rules.specs.Fold.{divisor_one, fold};
ghost use Rattle.rules.specs.Steps.{sum_at};
ghost use Rattle.rules.specs.Calls.{words as words_of};
ghost use Rattle.tables.specs.Kinds.{number_of};
ghost use Rattle.literals.specs.Literal.{Marked, SomeTest, LiteralAt};
ghost use Rattle.literals.specs.Rows.{most_word};
ghost use Rattle.literals.specs.Changes.{becomes};
ghost use Rattle.judging.specs.Judging.{Says, put_into};
ghost use Rattle.judging.specs.Masks.{Mask};
ghost use Rattle.judging.specs.Shifts.{Shifted, most_moved, Reach, Moves, SomeMoved};

use crate::answers::Judged;
use crate::{answers, masks};
use literals::{change, literal, row};
use tables::kind::Kind;
use tables::words;

// What is put in for x, in the far-left body or in the full one: w, w + 1, .. where v is w − x.
#[derive(Clone, Copy)]
pub struct Put<'a> {
    pub far: bool,
    pub x: usize,
    pub v: &'a [i64; 7],
}

// The bits i at which the test of this kind passes at c + f·i, one after the other.
fn one_by_one(kind: Kind, k: usize, c: i64, f: i64) -> u64
    requires { SomeTest (number_of kind) k × (nat_abs c ≤ most_moved) × (nat_abs f ≤ most_word) }
    ensures { (t : Test) → Marked (number_of kind) k t → Mask result (λ i. passes_test t (c +ℤ f *ℤ pos i)) }
{
    let mut m = 0;
    for i in 0..64 {
        m = masks::with(m, i, literal::passes(kind, k, c + f * i as i64));
    }
    m
}

// The same, without looking at each where it can: after steps 1 and 2 f is 1 or 0, or −1 in a 0 < T, and there is no
// T = 0. Never inlined, since most literals keep a setting, and their walk is to stay short.
#[inline(never)]
fn passing(kind: Kind, k: usize, c: i64, f: i64) -> u64
    requires { SomeTest (number_of kind) k × (nat_abs c ≤ most_moved) × (nat_abs f ≤ most_word) }
    ensures { (t : Test) → Marked (number_of kind) k t → Mask result (λ i. passes_test t (c +ℤ f *ℤ pos i)) }
{
    if f == 0 {
        return masks::throughout(literal::passes(kind, k, c));
    }
    if let Kind::Positive = kind {
        if f == 1 {
            return masks::rising(c);
        }
        if f == -1 {
            return masks::falling(c);
        }
        return one_by_one(kind, k, c, f);
    }
    if f != 1 {
        return one_by_one(kind, k, c, f);
    }
    match kind {
        Kind::Divisible => masks::multiples(k as u64, c),
        Kind::Indivisible => masks::opposite(masks::multiples(k as u64, c)),
        _ => one_by_one(kind, k, c, f),
    }
}

// Word i of T + f·v, where T starts at word `start`.
fn moved(b: &[u8], start: usize, i: usize, f: i64, v: &[i64; 7]) -> i64
    requires { Reach (words_of b.now) start f v.now × (i < 7) }
    ensures { (result ≡ get_or (words_of b.now) (start + i) (pos 0) +ℤ f *ℤ get_or v.now i (pos 0))
        × (nat_abs result ≤ most_moved) }
{
    row::term(b, start + i) + f * v[i]
}

// Whether a setting has a factor in T + f·v.
fn varies(b: &[u8], start: usize, f: i64, v: &[i64; 7]) -> bool
    requires { Reach (words_of b.now) start f v.now }
    ensures { (z : Sum) → Moves (words_of b.now) start f v.now z
        → result ≡ not (no_factors z) }
{
    for i in 1..7 {
        if moved(b, start, i, f, v) != 0 {
            return true;
        }
    }
    false
}

// "Divisor 1 makes kind 6 true and kind 7 false."
fn divisor_one(kind: Kind, k: usize) -> Option<bool>
    ensures { (t : Test) → Marked (number_of kind) k t
        → MatchOption result (divisor_one t ≡ false) (λ v. (z : Sum) → fold (Literal t z) ≡ Constant v) }
{
    if k != 1 {
        return None;
    }
    match kind {
        Kind::Divisible => Some(true),
        Kind::Indivisible => Some(false),
        _ => None,
    }
}

// The literal whose body starts these words, which stays one, at x = w, w + 1, .. where v is w − x.
#[inline(always)]
fn kept(b: &[u8], x: usize, v: &[i64; 7]) -> Judged
    requires { SomeMoved (words_of b.now) x v.now }
    ensures { (n : ℕ) (t : Test) (s w : Sum) (k : ℕ) → LiteralAt (words_of b.now) n t s
        → Shifted x w v.now → k < 64
        → Says result.yes result.no k (Literal t (sum_at x (add w (number (pos k))) s)) }
{
    let kind = Kind::at(b, 0);
    let k = words::natural(b, 1);
    if let Some(t) = divisor_one(kind, k) {
        return answers::known(t);
    }
    let start = literal::start(kind);
    let f = row::term(b, start + x);
    if varies(b, start, f, v) {
        return answers::neither();
    }
    answers::settled(passing(kind, k, moved(b, start, 0, f, v), f))
}

// The literal whose body starts these words, in the far-left body or in the full one.
#[inline(always)]
pub fn judge(b: &[u8], put: Put) -> Judged
    requires { SomeMoved (words_of b.now) put.x put.v.now }
    ensures { (n : ℕ) (t : Test) (s w : Sum) (k : ℕ) → LiteralAt (words_of b.now) n t s
        → Shifted put.entry.x w put.entry.v.now → k < 64
        → Says result.yes result.no k (becomes (put_into put.entry.far put.entry.x) (add w (number (pos k))) t s) }
{
    if !put.far {
        return kept(b, put.x, put.v);
    }
    match change::far_left(b, put.x) {
        Some(t) => answers::known(t),
        None => kept(b, put.x, put.v),
    }
}
