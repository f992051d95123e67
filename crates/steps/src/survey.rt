// What becomes of the disjuncts before any of them is built: how many stay open, or None where one folds to true.
ghost use Rattle.std.specs.Prelude.{[], ◌∷◌, ℕ, ◌≤◌, length};
ghost use Rattle.rules.specs.Rule.{Rule};
ghost use Rattle.rules.specs.Steps.{for_each, disjuncts};
ghost use Rattle.rules.specs.Eliminate.{most_period};
ghost use Rattle.steps.specs.There.{In};
ghost use Rattle.judging.specs.Judging.{at_sum, Judging, SomeJudging};
ghost use Rattle.steps.specs.Blocks.{BodyBounds, SomeBodyBounds, Judges};
ghost use Rattle.steps.specs.Surveying.{Surveyed};

use crate::{blocks, sums};
use judging::answers::Judged;
use judging::judge;
use tables::part::Part;

// How many stay open of the first n of a block; None where one folds to true.
fn of_block(judged: Judged, n: usize) -> Option<usize>
    requires { n ≤ 64 }
    ensures { (j : ℕ) (d : ℕ → Rule) → Judges judged.yes judged.no j d
        → Surveyed (for_each j n (λ i. d i ∷ [])) result }
{
    let mut many = 0;
    for k in 0..n {
        if blocks::has(judged.yes, k) {
            return None;
        }
        many += usize::from(!blocks::has(judged.no, k));
    }
    Some(many)
}

// The body at x = u+j for j = 1 to P, far-left or full. The last block goes first: a rule such as `P divides x` is
// true at j = P alone.
fn row(part: Part, far: bool, x: usize, u: &[i64; 7], period: usize) -> Option<usize>
    requires { In SomeJudging part x u.now period }
    ensures { (a : Rule)
        → In Judging part.entry x u.now period a
        → Surveyed (for_each 1 period (λ j. at_sum far x u.now j a ∷ [])) result }
{
    let mut many = 0;
    let mut left = period;
    // a block at a time, and no count of an index; so in `far` and `full`, around another turn
    while 0 < left {
        let low = left.saturating_sub(blocks::WIDTH);
        let judged = judge::judge(part, far, x, u, low + 1);
        many += of_block(judged, left - low)?;
        left = low;
    }
    Some(many)
}

// All disjuncts: the far-left bodies, and the full ones bound by bound. `places` has the places of the bounds'
// literals in the bodies.
pub fn of_disjuncts(part: Part, x: usize, period: usize, places: &[u32]) -> Option<usize>
    requires { In SomeBodyBounds part x places.now
        × (period ≤ most_period) × (length places.now ≤ 1365) }
    ensures { (a : Rule)
        → In BodyBounds part.entry x places.now a → Surveyed (disjuncts period x a) result }
{
    let zero = sums::numeral(0);
    let mut many = row(part, true, x, &zero, period)?;
    for &p in places {
        let bound = sums::above(part.bodies, p as usize, x, 0);
        many += row(part, false, x, &bound, period)?;
    }
    Some(many)
}
