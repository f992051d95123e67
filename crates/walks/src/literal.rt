// The leaf of a walk that folds: a literal, changed, is its truth value or is put.
ghost use Rattle.std.specs.Prelude.{List, ℕ};
ghost use Rattle.rules.specs.Sum.{Sum};
ghost use Rattle.rules.specs.Rule.{Test};
ghost use Rattle.rules.specs.Table.{Node};
ghost use Rattle.rules.specs.Fold.{fold_literal, fold};
ghost use Rattle.rules.specs.Calls.{words as words_of};
ghost use Rattle.builder.specs.Built.{Built};
ghost use Rattle.folding.specs.Answers.{Gives};
ghost use Rattle.literals.specs.Literal.{LiteralAt};
ghost use Rattle.literals.specs.Changes.{change_of, put_of, becomes, changed_sum, changed_test};
ghost use Rattle.walks.specs.Literals.{SomeChangeable, SomeKept};

use crate::put;
use builder::push::State;
use folding::answers::Folded;
use literals::change;
use literals::change::Change;
use tables::kind::Kind;

// The literal whose body starts these words, which the change keeps a literal, changed and folded.
fn kept(bodies: &[u8], change: Change, out: &mut [u8], b: State) -> Folded
    requires { SomeKept (words_of bodies.now) (change_of change) (put_of change) b }
    ensures { (n : ℕ) (t : Test) (s : Sum) (ds : List Node) → LiteralAt (words_of bodies.now) n t s
        → Built (words_of out.old) b ds
        → Gives (words_of out.new) b ds
        (fold_literal (changed_test (change_of change.entry) s t)
        (changed_sum (change_of change.entry) (put_of change.entry) s)) result }
{
    let kind = Kind::at(bodies, 0);
    let k = change::divisor(bodies, change);
    let sum = change::sum(bodies, change);
    put::put(kind, k, &sum, out, b)
}

// The literal whose body starts these words, changed and folded.
pub fn literal(bodies: &[u8], change: Change, out: &mut [u8], b: State) -> Folded
    requires { SomeChangeable (words_of bodies.now) (change_of change) (put_of change) b }
    ensures { (n : ℕ) (t : Test) (s : Sum) (ds : List Node) → LiteralAt (words_of bodies.now) n t s
        → Built (words_of out.old) b ds
        → Gives (words_of out.new) b ds (fold (becomes (change_of change.entry) (put_of change.entry) t s)) result }
{
    match change::far(bodies, change) {
        Some(v) => Folded::Known(v),
        None => kept(bodies, change, out, b),
    }
}
