// A literal put in front of what is built, folded.
ghost use Rattle.std.specs.Prelude.{◌≡◌, List};
ghost use Rattle.rules.specs.Sum.{no_factors};
ghost use Rattle.rules.specs.Rule.{Test, passes};
ghost use Rattle.rules.specs.Table.{Node};
ghost use Rattle.rules.specs.Fold.{fold_literal};
ghost use Rattle.rules.specs.Calls.{words};
ghost use Rattle.rules.proofs.Folding.{settles as settles_of};
ghost use Rattle.tables.specs.Kinds.{number_of};
ghost use Rattle.builder.specs.Built.{Built};
ghost use Rattle.folding.specs.Answers.{Gives};
ghost use Rattle.literals.specs.Literal.{Marked};
ghost use Rattle.walks.specs.Literals.{SomeMarked, Puttable};

use builder::push;
use builder::push::State;
use folding::answers::Folded;
use literals::literal;
use tables::kind::Kind;

// Whether the a's, which are the words behind c, are all zero.
fn no_factors(sum: &[i32; 7]) -> bool
    ensures { result ≡ no_factors sum.now }
{
    sum[1..].iter().all(|a| *a == 0)
}

// Whether the literal has a truth value. A kind whose T starts behind its divisor has one.
fn settles(kind: Kind, k: usize, sum: &[i32; 7]) -> bool
    ensures { (t : Test) → Marked (number_of kind) k t → result ≡ settles_of t sum.now }
{
    no_factors(sum) || literal::start(kind) == 2 && k == 1
}

// What the test of this kind, with this divisor, says of c. 0 divides 0 alone: a change that no step makes could scale
// a divisor to 0.
fn truth(kind: Kind, k: usize, c: i32) -> bool
    requires { SomeMarked (number_of kind) k }
    ensures { (t : Test) → Marked (number_of kind) k t → result ≡ passes t c }
{
    match (kind, k) {
        (Kind::Divisible, 0) => c == 0,
        (Kind::Indivisible, 0) => c != 0,
        _ => literal::passes(kind, k, c as i64),
    }
}

// "A literal whose a's are all zero becomes its truth value. Divisor 1 makes kind 6 true and kind 7 false."
pub fn put(kind: Kind, k: usize, sum: &[i32; 7], out: &mut [u8], b: State) -> Folded
    requires { Puttable (number_of kind) k sum.now b }
    ensures { (t : Test) (ds : List Node) → Marked (number_of kind) k t → Built (words out.old) b ds
        → Gives (words out.new) b ds (fold_literal t sum.now) result }
{
    if settles(kind, k, sum) {
        return Folded::Known(truth(kind, k, sum[0]));
    }
    match kind {
        Kind::Positive => Folded::Pushed(push::compared(out, b, false, sum)),
        Kind::Zero => Folded::Pushed(push::compared(out, b, true, sum)),
        Kind::Divisible => Folded::Pushed(push::divided(out, b, true, k, sum)),
        _ => Folded::Pushed(push::divided(out, b, false, k, sum)),
    }
}
