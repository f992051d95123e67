// The one walk that rebuilds what stands around the chosen quantifier: it goes down to it, and folds the rest again.
ghost use Rattle.std.specs.Prelude.{List, ℕ};
ghost use Rattle.rules.specs.Rule.{Quantifier, Rule};
ghost use Rattle.rules.specs.Table.{Node};
ghost use Rattle.rules.specs.Fold.{fold as fold_of};
ghost use Rattle.rules.specs.Chosen.{replace};
ghost use Rattle.rules.specs.Calls.{words as words_of};
ghost use Rattle.folding.specs.Answers.{Gives};
ghost use Rattle.steps.specs.There.{In};
ghost use Rattle.steps.specs.Making.{new_of, Around, SomeAround, Bare, SomeBare};

use crate::made;
use crate::made::Step;
use builder::push::State;
use folding::answers;
use folding::answers::Folded;
use literals::change::Change;
use tables::part::Part;
use walks::{chain, fold};

// The rule that stands there, with the step's new rule in the place of the chosen quantifier, node `chosen`.
#[cycle(around_within)]
pub fn around(part: Part, chosen: usize, step: Step, out: &mut [u8], b: State) -> Folded
    requires { In SomeAround part chosen step (words_of out.old) b }
    ensures { (a : Rule) (q : Quantifier) (x : ℕ) (body : Rule) (ds : List Node)
        → In Around part.entry chosen step.entry (words_of out.old) b a q x body ds
        → Gives (words_of out.new) b ds (fold_of (replace (new_of step.entry x body) a)) result }
{
    let links = chain::chain(part.bodies, chosen - part.node);
    let inner = within(part.behind(links.nodes, links.words), chosen, step, out, b);
    chain::wrapped(part, links.nodes, out, b, inner)
}

// The same of the chosen quantifier itself, or of an and or an or with it on one side; the other side is folded again.
#[cycle(around_within)]
fn within(part: Part, chosen: usize, step: Step, out: &mut [u8], b: State) -> Folded
    requires { In SomeBare part chosen step (words_of out.old) b }
    ensures { (a : Rule) (q : Quantifier) (x : ℕ) (body : Rule) (ds : List Node)
        → In Around part.entry chosen step.entry (words_of out.old) b a q x body ds
        → Bare part.entry.node chosen a
        → Gives (words_of out.new) b ds (fold_of (replace (new_of step.entry x body) a)) result }
{
    if part.node == chosen {
        return made::made(part, step, out, b);
    }
    let both = part.kind().is_and();
    let side = part.right();
    let right = if chosen < side.node {
        fold::fold(side, Change::Same, out, b)
    } else {
        around(side, chosen, step, out, b)
    };
    if answers::settles(both, right) {
        return right;
    }
    let c = answers::after(b, right);
    let left = if chosen < side.node {
        around(part.left(), chosen, step, out, c)
    } else {
        fold::fold(part.left(), Change::Same, out, c)
    };
    answers::joined(out, both, b, right, left)
}
