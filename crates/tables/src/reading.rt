// Reading the node whose body starts some words. Nothing is assumed of the words.
ghost use Rattle.std.specs.Prelude.{◌≡◌, ◌+◌, ◌<◌, ◌≤◌, length, get_or, is_some, IfSome};
ghost use Rattle.std.proofs.Math.Seq.{slice};
ghost use Rattle.rules.specs.Sum.{limit, all_within};
ghost use Rattle.rules.specs.Calls.{words};
ghost use Rattle.tables.specs.Reads.{SumAt, NumberAt, DividedAt, FieldsAt, NodeAt, widths};
ghost use Rattle.tables.specs.Kinds.{number_of};

use crate::kind::Kind;
use crate::refusal::Refusal;
use crate::words;

// What is read of a node: its kind.
#[derive(Clone, Copy)]
pub struct Node {
    pub kind: Kind,
}

// Whether the words from place `from` up to place `to` lie within ±2,147,483,647: in 32 bits one number alone does not.
fn within_limit(b: &[u8], from: usize, to: usize) -> bool
    requires { to ≤ length (words b.now) }
    ensures { result ≡ all_within limit (slice from to (words b.now)) }
{
    (from..to).all(|i| words::get(b, i) != i32::MIN)
}

// Where c, a1..a6 from place q on end, if they are there.
fn sum(b: &[u8], q: usize) -> Option<usize>
    requires { q ≤ 2 }
    ensures reads { SumAt (words b.now) q (is_some result) }
    ensures ends { IfSome result (λ e. e ≡ q + 7) }
{
    let end = q + 7;
    (end <= words::count(b) && within_limit(b, q, end)).then_some(end)
}

// Where a number from 1 to `most` as word 1 ends. The bits of a number below 0 are over every `most`.
fn number(b: &[u8], most: usize) -> Option<usize>
    requires { most < 2147483648 }
    ensures reads { NumberAt (words b.now) most (is_some result) }
    ensures ends { IfSome result (λ e. e ≡ 2) }
{
    (2 <= words::count(b) && (1..=most).contains(&words::natural(b, 1))).then_some(2)
}

// Sum.limit
const LIMIT: usize = 2147483647;

// Where a divisor as word 1 and the sum behind it end.
fn divisor_and_sum(b: &[u8]) -> Option<usize>
    ensures reads { DividedAt (words b.now) (is_some result) }
    ensures ends { IfSome result (λ e. e ≡ 9) }
{
    let behind = number(b, LIMIT)?;
    sum(b, behind)
}

// By kind, a digit of 4 bits each, that of kind 0 lowest: how many words a body has. The commonest kinds go before the
// digits, by branches: the processor guesses those, so that reading the next body need not wait for this one's kind.
// A match over Kind was tried here: a loop over bodies, each found by the width before, took twice as long.
const WIDTHS: usize = 0x82299812211;

// How many words a body of the kind with this number has, for such a loop; a number of no kind has none. Half the
// number tells an and or an or.
pub fn width(kind: usize) -> usize
    ensures { (result ≡ get_or widths kind 0) × (result ≤ 9) }
{
    if kind == Kind::Positive as usize {
        return 8;
    }
    if kind / 2 == Kind::And as usize / 2 {
        return 2;
    }
    if kind == Kind::Not as usize {
        return 1;
    }
    if kind <= Kind::Zero as usize {
        return (WIDTHS >> (kind * 4)) % 16;
    }
    0
}

// How many words the body has, if the fields of its kind stand behind word 0. Each field tells where it ends, so that a
// reader that has guessed the kind need not wait for the kind's width.
#[inline(always)]
fn fields(b: &[u8], kind: Kind) -> Option<usize>
    ensures reads { FieldsAt (words b.now) (number_of kind) (is_some result) }
    ensures ends { IfSome result (λ e. e ≡ get_or widths (number_of kind) 0) }
{
    match kind {
        Kind::False | Kind::True | Kind::Not => Some(1),
        Kind::And | Kind::Or => (2 <= words::count(b)).then_some(2),
        Kind::Positive | Kind::Zero => sum(b, 1),
        Kind::Divisible | Kind::Indivisible => divisor_and_sum(b),
        Kind::ForSome | Kind::ForAll => number(b, 6),
    }
}

// The kind with this number, if it is one of the commonest four.
#[tactic(auto, unfolding(crate::specs::Kinds::number_of))]
fn common(number: usize) -> Option<Kind>
    ensures { IfSome result (λ k. number ≡ number_of k) }
{
    match number {
        2 => Some(Kind::And),
        3 => Some(Kind::Or),
        4 => Some(Kind::Not),
        5 => Some(Kind::Positive),
        _ => None,
    }
}

// The node whose body starts these words, at this place, of whatever kind.
#[inline(never)]
fn any_node(b: &[u8], place: usize) -> Result<(Node, usize), Refusal>
    requires { place ≤ 16384 }
    ensures { NodeAt (words b.now) place result }
{
    if words::count(b) == 0 {
        return Err(Refusal::Node);
    }
    let kind = Kind::try_from(words::natural(b, 0))?;
    let Some(width) = fields(b, kind) else {
        return Err(Refusal::Node);
    };
    Ok((Node { kind }, place + width))
}

// "Reading a table answers a node with the next place, or a refusal": the node whose body starts these words, at this
// place. The commonest kinds are told by branches, and the others by a call: one jump by all kinds was tried, and a
// check takes twice as long.
pub fn read_node(b: &[u8], place: usize) -> Result<(Node, usize), Refusal>
    requires { place ≤ 16384 }
    ensures { NodeAt (words b.now) place result }
{
    if words::count(b) == 0 {
        return Err(Refusal::Node);
    }
    let Some(kind) = common(words::natural(b, 0)) else {
        return any_node(b, place);
    };
    match fields(b, kind) {
        Some(words) => Ok((Node { kind }, place + words)),
        None => Err(Refusal::Node),
    }
}
