// A block: up to 64 values of j, at which a body is judged at once. Bit k of a mask stands for the k-th of them.
ghost use Rattle.std.specs.Prelude.{◌≡◌, ◌<◌, ◌≤◌, eqb, length};
ghost use Rattle.rules.specs.Rule.{Rule};
ghost use Rattle.rules.specs.Eliminate.{most_period};
ghost use Rattle.steps.specs.There.{In};
ghost use Rattle.judging.specs.Judging.{bit};
ghost use Rattle.steps.specs.Blocks.{BodyBounds, SomeBodyBounds, FalseAtBounds};

use crate::sums;
use judging::answers::Judged;
use judging::judge;
use tables::part::Part;

// How many values of j a block has, but the first, which has what is left.
pub const WIDTH: usize = 64;

// Whether a mask has bit k.
pub fn has(mask: u64, k: usize) -> bool
    requires { k < 64 }
    ensures { result ≡ eqb (bit mask k) 1 }
{
    mask >> k & 1 == 1
}

// For each bound, where the full body folds to false. There may be more masks than bounds.
pub fn false_at_bounds(part: Part, x: usize, j: usize, places: &[u32], masks: &mut [u64])
    requires { In SomeBodyBounds part x places.now
        × (j ≤ most_period) × (length places.now ≤ length masks.old) }
    ensures { (a : Rule)
        → In BodyBounds part.entry x places.now a
        → FalseAtBounds masks.new x j (length places.now) a }
{
    for (i, &p) in places.iter().enumerate() {
        let u = sums::above(part.bodies, p as usize, x, 0);
        let judged = judge::judge(part, false, x, &u, j);
        masks[i] = judged.no;
    }
}
