// The result of a call that makes a table: its answer, and zeros after the table.
ghost use Rattle.std.specs.Prelude.{◌≡◌, Bool, not, ◌&&◌, ◌||◌, List, ◌++◌, ℕ, ◌-◌, ◌<◌, ◌≤◌, eqb, length, replicate};
ghost use Rattle.rules.specs.Sum.{Sum, has};
ghost use Rattle.rules.specs.Rule.{Test, Rule};
ghost use Rattle.rules.specs.Result.{given};
ghost use Rattle.rules.specs.Table.{encode};
ghost use Rattle.rules.specs.Answer.{verdict_of, settings_of, table_answer};
ghost use Rattle.rules.specs.Calls.{words as words_of, bytes_of};
ghost use Rattle.tables.specs.Kinds.{kind_of};
ghost use Rattle.tables.specs.Settings.{IsSet};
ghost use Rattle.bodies.specs.Body.{BodyOf, SomeBody};
ghost use Rattle.bodies.specs.Cursor.{LiteralAt, SomeLiteral};
ghost use Rattle.elimination.specs.Stepping.{HasTable, SomeTable};
ghost use Rattle.leaveoff.specs.Outcome.{answer_of, verdict_number};
ghost use Rattle.leaveoff.specs.Result.{Held, SomeHeld};

use crate::answer::Answer;
use crate::verdict::Verdict;
use bodies::cursor::Literals;
use bodies::span;
use elimination::parts;
use tables::extent::Extent;
use tables::kind::Kind;
use tables::{settings, words};

// "Open means only that the folded result is not a bare true or false", whose root has this kind.
fn verdict(kind: Kind) -> Verdict
    ensures { (a : Rule) → kind ≡ kind_of a → verdict_number result ≡ verdict_of a }
{
    match kind {
        Kind::True => Verdict::True,
        Kind::False => Verdict::False,
        _ => Verdict::Open,
    }
}

// A set of settings, and setting v with it where the factor with these bits is not zero.
fn with_factor(set: u32, v: u32, factor: usize) -> u32
    requires { (1 ≤ v) × (v ≤ 6) }
    ensures { (p : ℕ → Bool) → IsSet set p → IsSet result (λ w. p w || (eqb w v && not (eqb factor 0))) }
{
    if factor == 0 {
        return set;
    }
    settings::join(set, settings::one(v))
}

// "A setting occurs where some literal has a nonzero factor for it": those of the literal at this place. Its sum is the
// last seven words of its body.
fn factors(bodies: &[u8], place: usize) -> u32
    requires { (end : ℕ) × SomeLiteral (words_of bodies.now) place end }
    ensures { (end : ℕ) (t : Test) (s : Sum) (ls : List (Test × Sum))
        → LiteralAt (words_of bodies.now) place end t s ls → IsSet result (λ v. has v s) }
{
    let sum = place + (Kind::at(bodies, place).width() - 7);
    let mut set = 0;
    for v in 1..7 {
        set = with_factor(set, v, words::natural(bodies, sum + v as usize));
    }
    set
}

// The settings that occur in a rule.
fn occurring(bodies: &[u8], end: usize) -> u32
    requires { SomeBody (words_of bodies.now) end }
    ensures { (n : ℕ) (a : Rule) → BodyOf (words_of bodies.now) end n a → result ≡ settings_of a }
{
    let mut set = 0;
    for place in Literals::of(bodies, end) {
        set = settings::join(set, factors(bodies, place));
    }
    set
}

// What is answered of the rule whose table starts these words.
fn answered(table: &[u8]) -> Answer
    requires { SomeTable (words_of table.now) }
    ensures { (r : Rule) → HasTable (words_of table.now) r
        → answer_of result ≡ table_answer (given r) }
{
    let rule = parts::rule(table);
    let Extent { nodes, words } = span::extent(rule);
    Answer {
        number: 0,
        verdict: verdict(rule.kind()).number(),
        words: (nodes + 1 + words) as u32,
        settings: occurring(rule.bodies, words),
    }
}

// "the table at the start of the output buffer, zeros after it", and what is answered of it.
pub fn result(out: &mut [u8]) -> Answer
    requires { SomeHeld (words_of out.old) }
    ensures { (r : Rule) → Held (words_of out.old) r
        → (answer_of result ≡ table_answer (given r))
        × (out.new ≡ bytes_of (encode r)
        ++ replicate (length out.old - length (bytes_of (encode r))) 0) }
{
    let most = words::room(out.len(), out.len()) * 4;
    let answer = answered(&out[..most]);
    let end = answer.words as usize * 4;
    words::zero(&mut out[end..]);
    answer
}
