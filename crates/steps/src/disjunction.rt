// Step 3: "Disjuncts: the far-left body at x = j for j = 1 to P; then for each j = 1 to P, for each bound b in list
// order, the full body at x = b+j. Join them by or, nested to the right." The last is put first.
ghost use Rattle.std.specs.Prelude.{List};
ghost use Rattle.rules.specs.Rule.{Rule};
ghost use Rattle.rules.specs.Table.{Node};
ghost use Rattle.rules.specs.Fold.{fold as fold_of};
ghost use Rattle.rules.specs.Steps.{disjunction as disjunction_of};
ghost use Rattle.rules.specs.Calls.{words};
ghost use Rattle.steps.specs.There.{In};
ghost use Rattle.folding.specs.Answers.{Gives};
ghost use Rattle.steps.specs.Disjoining.{Disjoining, SomeDisjoining};

use crate::{far, full};
use builder::push::State;
use folding::answers::Folded;
use tables::part::Part;

// All disjuncts, folded: `places` has the places of the bounds' literals in the bodies.
pub fn disjunction(
    part: Part,
    x: usize,
    period: usize,
    places: &[u32],
    out: &mut [u8],
    b: State,
) -> Folded
    requires { In SomeDisjoining part x period places.now (words out.old) b }
    ensures { (a : Rule) (ds : List Node)
        → In Disjoining part.entry x period places.now (words out.old) b a ds
        → Gives (words out.new) b ds (fold_of (disjunction_of period x a)) result }
{
    let full = full::full_bodies(part, x, period, places, out, b);
    far::far_bodies(part, x, period, out, b, full)
}
