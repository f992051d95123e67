// Step 1 on one literal: "Not of 0 < T becomes 0 < 1−T. T = 0 becomes 0 < 1−T and 0 < 1+T. Not of T = 0 becomes 0 < −T
// or 0 < T. Kinds 6 and 7 trade places. A kind 6 or 7 whose x factor is negative has T negated."
ghost use Rattle.std.specs.Prelude.{◌≡◌, Bool, false, List, ℕ, ◌<◌, ◌≤◌};
ghost use Rattle.rules.specs.Sum.{Sum, factor as factor_of};
ghost use Rattle.rules.specs.Rule.{Test, divisible, is_zero, Literal, whether};
ghost use Rattle.rules.specs.Table.{Node};
ghost use Rattle.rules.specs.Steps.{normal_literal};
ghost use Rattle.rules.specs.Calls.{words as words_of};
ghost use Rattle.tables.specs.Kinds.{number_of};
ghost use Rattle.tables.specs.Reads.{test_kind};
ghost use Rattle.builder.specs.Built.{Built, Countable};
ghost use Rattle.walks.specs.Sums.{turned, raised, RaiseOf, SumAt, SomeSum, TestAt, SomeTestAt};
ghost use Rattle.walks.specs.Normal.{Normalled, LiteralReady, SomeLiteralReady, ZeroReady, SomeZeroReady};

use crate::{both, put};
use builder::push::State;
use folding::answers;
use folding::answers::Folded;
use literals::literal;
use tables::kind::Kind;
use tables::words;

// The factor of setting v in T, or with `minus` in −T, where T starts at word `at`; that of v = 0 is c.
fn factor(bodies: &[u8], at: usize, v: usize, minus: bool) -> i32
    requires { SomeSum (words_of bodies.now) at × (v < 7) }
    ensures { (s : Sum) → SumAt (words_of bodies.now) at s → result ≡ factor_of v (turned minus s) }
{
    let a = words::get(bodies, at + v);
    if minus { -a } else { a }
}

// c, with `one` one more; none where that passes the limit.
fn more(c: i32, one: bool) -> Option<i32>
    ensures { RaiseOf one c result }
{
    if one { c.checked_add(1) } else { Some(c) }
}

// The test of this kind of T or −T, or with `one` of one more. The other numbers have the size of those of T: c alone
// can pass the limit.
fn test(
    kind: Kind,
    k: usize,
    bodies: &[u8],
    minus: bool,
    one: bool,
    out: &mut [u8],
    b: State,
) -> Option<Folded>
    requires { SomeTestAt (words_of bodies.now) (number_of kind) k × Countable b 9 }
    ensures { (t : Test) (s : Sum) (ds : List Node) → TestAt (words_of bodies.now) (number_of kind) k t s
        → Built (words_of out.old) b ds
        → Normalled (words_of out.new) b ds (Literal t (raised one (turned minus s))) result }
{
    let at = literal::start(kind);
    let c = more(factor(bodies, at, 0, minus), one)?;
    let mut sum = [c; 7];
    for v in 1..7 {
        sum[v] = factor(bodies, at, v, minus);
    }
    Some(put::put(kind, k, &sum, out, b))
}

// T = 0, or its opposite.
fn zero(plainly: bool, bodies: &[u8], out: &mut [u8], b: State) -> Option<Folded>
    requires { SomeZeroReady (words_of bodies.now) (words_of out.old) b }
    ensures { (x : ℕ) (s : Sum) (ds : List Node)
        → ZeroReady (words_of bodies.now) (words_of out.old) b s ds
        → Normalled (words_of out.new) b ds (normal_literal plainly x is_zero s) result }
{
    let right = test(Kind::Positive, 1, bodies, false, plainly, out, b)?;
    let left = test(
        Kind::Positive,
        1,
        bodies,
        true,
        plainly,
        out,
        answers::after(b, right),
    )?;
    Some(both::both(out, plainly, b, right, left))
}

// Kind 6 or 7, or the other of the two.
fn traded(kind: Kind, plainly: bool) -> Kind
    ensures { (c : Bool) (k : ℕ) → number_of kind ≡ test_kind (divisible c k)
        → number_of result ≡ test_kind (divisible (whether plainly c) k) }
{
    if plainly {
        return kind;
    }
    match kind {
        Kind::Divisible => Kind::Indivisible,
        _ => Kind::Divisible,
    }
}

// The literal whose body starts these words, or its opposite.
pub fn literal(plainly: bool, bodies: &[u8], x: usize, out: &mut [u8], b: State) -> Option<Folded>
    requires { SomeLiteralReady (words_of bodies.now) x (words_of out.old) b }
    ensures { (n : ℕ) (t : Test) (s : Sum) (ds : List Node)
        → LiteralReady (words_of bodies.now) n x (words_of out.old) b t s ds
        → Normalled (words_of out.new) b ds (normal_literal plainly x t s) result }
{
    let kind = Kind::at(bodies, 0);
    let k = words::natural(bodies, 1);
    match kind {
        Kind::Positive => test(Kind::Positive, 1, bodies, !plainly, !plainly, out, b),
        Kind::Zero => zero(plainly, bodies, out, b),
        _ => {
            let minus = factor(bodies, 2, x, false) < 0;
            test(traded(kind, plainly), k, bodies, minus, false, out, b)
        }
    }
}
