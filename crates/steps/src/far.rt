// The far-left bodies of step 3: "the far-left body at x = j for j = 1 to P", from the last to the first. A block of 64
// values of j is judged at once, and a body that folds to false there is passed over.
ghost use Rattle.std.specs.Prelude.{List, ℕ, ◌<◌};
ghost use Rattle.rules.specs.Rule.{Rule};
ghost use Rattle.rules.specs.Table.{Node};
ghost use Rattle.rules.specs.Fold.{fold as fold_of};
ghost use Rattle.rules.specs.Steps.{disjunction as disjunction_of};
ghost use Rattle.rules.specs.Calls.{words};
ghost use Rattle.steps.specs.There.{In};
ghost use Rattle.folding.specs.Answers.{Gives};
ghost use Rattle.steps.specs.Disjoining.{FarToCome, SomeFarToCome};
ghost use Rattle.steps.specs.Disjoining.{FarFrom, FarBlock, SomeFarBlock};

use crate::{blocks, disjunct, sums};
use builder::push::State;
use folding::answers::Folded;
use judging::judge;
use literals::change::Change;
use tables::part::Part;

// The far-left bodies of one block, from that at x = high to that at x = low + 1. Its mask has a bit where one is
// false.
fn far_block(
    part: Part,
    x: usize,
    low: usize,
    high: usize,
    mask: u64,
    out: &mut [u8],
    b: State,
    others: Folded,
) -> Folded
    requires { In SomeFarBlock part x low high mask (words out.old) b others }
    ensures { (P : ℕ) (a : Rule) (l : List Rule) (ds : List Node)
        → In FarBlock part.entry x low high mask (words out.old) b P a l ds others
        → In FarFrom part.entry x P (words out.new) b a l ds low result }
{
    let mut f = others;
    for j in (low + 1..=high).rev() {
        if blocks::has(mask, j - low - 1) {
            continue;
        }
        let u = sums::numeral(j);
        f = disjunct::disjunct(part, Change::Far(x, &u), out, b, f);
    }
    f
}

// The far-left bodies, block by block, from that at x = P to that at x = 1.
pub fn far_bodies(
    part: Part,
    x: usize,
    period: usize,
    out: &mut [u8],
    b: State,
    others: Folded,
) -> Folded
    requires { In SomeFarToCome part x period (words out.old) b others }
    ensures { (a : Rule) (l : List Rule) (ds : List Node)
        → In FarToCome part.entry x period (words out.old) b a l ds others
        → Gives (words out.new) b ds (fold_of (disjunction_of period x a)) result }
{
    let zero = sums::numeral(0);
    let mut j = period;
    let mut f = others;
    // a block at a time, and no count of an index; so in `full` and `survey`, around another turn
    while 0 < j {
        let low = j.saturating_sub(blocks::WIDTH);
        let judged = judge::judge(part, true, x, &zero, low + 1);
        f = far_block(part, x, low, j, judged.no, out, b, f);
        j = low;
    }
    f
}
