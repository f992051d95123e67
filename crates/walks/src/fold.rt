// "Folding goes from the leaves to the root": a rule of a table, each of its literals changed, is folded as it is put.
ghost use Rattle.std.specs.Prelude.{List};
ghost use Rattle.rules.specs.Rule.{Rule};
ghost use Rattle.rules.specs.Table.{Node};
ghost use Rattle.rules.specs.Fold.{fold as fold_of};
ghost use Rattle.rules.specs.Calls.{words as words_of};
ghost use Rattle.folding.specs.Answers.{Gives};
ghost use Rattle.walks.specs.Walk.{changed_by, ReadyIn, CoreIn, SomeRule};

use crate::{chain, literal};
use builder::push::State;
use folding::answers;
use folding::answers::Folded;
use literals::change::Change;
use tables::kind::Kind;
use tables::part::Part;

// The rule of this part. Most start with no chain, and cost none of its loops.
#[cycle(chained_core_fold)]
#[inline(always)]
pub fn fold(part: Part, change: Change, out: &mut [u8], b: State) -> Folded
    requires { SomeRule (ReadyIn part change (words_of out.old) b) }
    ensures { (a : Rule) (ds : List Node) → ReadyIn part.entry change.entry (words_of out.old) b a ds
        → Gives (words_of out.new) b ds (fold_of (changed_by change.entry a)) result }
{
    if chain::link(part.kind()) == 0 {
        return core(part, change, out, b);
    }
    chained(part, change, out, b)
}

// The same past a chain.
#[cycle(chained_core_fold)]
#[inline(never)]
fn chained(part: Part, change: Change, out: &mut [u8], b: State) -> Folded
    requires { SomeRule (ReadyIn part change (words_of out.old) b) }
    ensures { (a : Rule) (ds : List Node) → ReadyIn part.entry change.entry (words_of out.old) b a ds
        → Gives (words_of out.new) b ds (fold_of (changed_by change.entry a)) result }
{
    let links = chain::chain(part.bodies, chain::MOST_NODES);
    let inner = core(part.behind(links.nodes, links.words), change, out, b);
    chain::wrapped(part, links.nodes, out, b, inner)
}

// The same of a rule that is neither a not nor a quantifier. The right side is put first: where it settles an and or an
// or, the left one is not looked at.
#[cycle(chained_core_fold)]
fn core(part: Part, change: Change, out: &mut [u8], b: State) -> Folded
    requires { SomeRule (CoreIn part change (words_of out.old) b) }
    ensures { (a : Rule) (ds : List Node) → CoreIn part.entry change.entry (words_of out.old) b a ds
        → Gives (words_of out.new) b ds (fold_of (changed_by change.entry a)) result }
{
    let kind = part.kind();
    match kind {
        Kind::False | Kind::True => return Folded::Known(kind.is_true()),
        Kind::And | Kind::Or => {}
        _ => return literal::literal(part.bodies, change, out, b),
    }
    let both = kind.is_and();
    let right = fold(part.right(), change, out, b);
    if answers::settles(both, right) {
        return right;
    }
    let left = fold(part.left(), change, out, answers::after(b, right));
    answers::joined(out, both, b, right, left)
}
