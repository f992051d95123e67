// One disjunct of step 3, put in front of those that are answered.
ghost use Rattle.std.specs.Prelude.{List, ◌∷◌};
ghost use Rattle.rules.specs.Rule.{Rule};
ghost use Rattle.rules.specs.Table.{Node};
ghost use Rattle.rules.specs.Calls.{words};
ghost use Rattle.steps.specs.There.{In};
ghost use Rattle.rules.proofs.Disjuncts.{fold_any};
ghost use Rattle.folding.specs.Answers.{Gives};
ghost use Rattle.literals.specs.Changes.{change_of, put_of};
ghost use Rattle.walks.specs.Walk.{changed_by};
ghost use Rattle.steps.specs.Disjoining.{Disjunct, SomeDisjunct};

use builder::push::State;
use folding::answers;
use folding::answers::Folded;
use literals::change::Change;
use tables::part::Part;
use walks::fold;

// One more disjunct, in front of those that are answered. A true one ends the work.
pub fn disjunct(part: Part, change: Change, out: &mut [u8], b: State, others: Folded) -> Folded
    requires { In SomeDisjunct part (change_of change) (put_of change) (words out.old) b others }
    ensures { (a : Rule) (l : List Rule) (ds : List Node)
        → In Disjunct part.entry (change_of change.entry) (put_of change.entry) (words out.old) b a l ds others
        → Gives (words out.new) b ds (fold_any (changed_by change.entry a ∷ l)) result }
{
    if answers::settles(false, others) {
        return others;
    }
    let c = answers::after(b, others);
    let answered = fold::fold(part, change, out, c);
    answers::joined(out, false, b, others, answered)
}
