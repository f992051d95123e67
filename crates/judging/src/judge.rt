// A body judged at 64 values of x at once, without building it: each literal is judged as two masks (see `answers`),
// and nots, ands and ors join them on the way up.
ghost use Rattle.std.specs.Prelude.{true, false, ◌≡◌, List, ℕ, ◌+◌, ◌<◌, ℤ};
ghost use Rattle.rules.specs.Rule.{Rule};
ghost use Rattle.rules.specs.Calls.{words as words_of};
ghost use Rattle.tables.specs.Standing.{Stands};
ghost use Rattle.tables.specs.declared.kind.Kind.TheVariants.{False, True, And, Or};
ghost use Rattle.judging.specs.Judging.{Says, at_sum, Judging, SomeJudging};
ghost use Rattle.judging.specs.Walks.{SomeWalking, Judges, SomeSpine, SomeLeaf, SameJoin, nots as nots_of, SomeStands};

use crate::answers::Judged;
use crate::literal::Put;
use crate::{answers, literal, shift};
use tables::kind::Kind;
use tables::part::Part;

// How many nots start these bodies. Counted by what is read: a range would want an end, which the rule does not tell.
fn nots(bodies: &[u8]) -> usize
    requires { SomeStands (words_of bodies.now) }
    ensures { (es : List ℤ) (n p : ℕ) (a : Rule) → Stands es (words_of bodies.now) n p a
        → result ≡ nots_of a }
{
    let mut n = 0;
    while let Kind::Not = Kind::at(bodies, n) {
        n += 1;
    }
    n
}

// Whether a rule of this kind is an and (true), or an or.
fn is_join(kind: Kind, and: bool) -> bool
    ensures { SameJoin kind and result }
{
    match kind {
        Kind::And => and,
        Kind::Or => !and,
        _ => false,
    }
}

// A literal or a quantifier. A quantifier stays; the body of the chosen one has none. Never inlined, as the match of
// the walk is to keep few targets.
#[inline(never)]
fn leaf(part: Part, put: Put) -> Judged
    requires { SomeLeaf part put.x put.v.now }
    ensures { Judges part.entry put.entry.far put.entry.x put.entry.v.now result.yes result.no }
{
    match part.kind() {
        Kind::ForSome | Kind::ForAll => answers::neither(),
        _ => literal::judge(part.bodies, put),
    }
}

// The rule that stands there, at x = w, w + 1, .. A run of nots is passed by one call.
#[cycle(side_spine_walk)]
fn walk(part: Part, put: Put) -> Judged
    requires { SomeWalking part put.x put.v.now }
    ensures { Judges part.entry put.entry.far put.entry.x put.entry.v.now result.yes result.no }
{
    let kind = part.kind();
    match kind {
        Kind::False | Kind::True => answers::known(kind.is_true()),
        Kind::And | Kind::Or => spine(kind.is_and(), part, put),
        Kind::Not => {
            let n = nots(part.bodies);
            answers::turned(n % 2 == 1, walk(part.behind(n, n), put))
        }
        _ => leaf(part, put),
    }
}

// An and or an or. Joins of one kind "nested to the right" are gone through by a loop: each adds its left side to what
// is judged before it, until that settles them all or another kind stands there. The loop counts no index.
#[cycle(side_spine_walk)]
fn spine(and: bool, part: Part, put: Put) -> Judged
    requires { SomeSpine and part put.x put.v.now }
    ensures { Judges part.entry put.entry.far put.entry.x put.entry.v.now result.yes result.no }
{
    let mut before = answers::known(and);
    let mut rest = part;
    while is_join(rest.kind(), and) {
        before = answers::joined(and, before, side(rest.left(), put));
        if answers::settles(and, before) {
            return before;
        }
        rest = rest.right();
    }
    answers::joined(and, before, side(rest, put))
}

// The same of a side. A literal, as most are, costs no call of the walk.
#[cycle(side_spine_walk)]
#[inline(always)]
fn side(part: Part, put: Put) -> Judged
    requires { SomeWalking part put.x put.v.now }
    ensures { Judges part.entry put.entry.far put.entry.x put.entry.v.now result.yes result.no }
{
    match part.kind() {
        Kind::Positive | Kind::Divisible | Kind::Indivisible | Kind::Zero => {
            literal::judge(part.bodies, put)
        }
        _ => walk(part, put),
    }
}

// The body that stands there, at x = u + j + k for k = 0 to 63, far-left or full.
pub fn judge(part: Part, far: bool, x: usize, u: &[i64; 7], j: usize) -> Judged
    requires { SomeJudging (words_of part.entries.now) (words_of part.bodies.now) part.node part.place x u.now j }
    ensures { (a : Rule) (k : ℕ)
        → Judging (words_of part.entry.entries.now) (words_of part.entry.bodies.now) part.entry.node part.entry.place
        x u.now j a
        → k < 64 → Says result.yes result.no k (at_sum far x u.now (j + k) a) }
{
    let v = shift::shifted(u, j, x);
    walk(part, Put { far, x, v: &v })
}
