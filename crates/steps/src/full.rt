// The full bodies of step 3: "for each j = 1 to P, for each bound b in list order, the full body at x = b+j", from the
// last to the first. A block of 64 values of j is judged at once, and a body that folds to false there is passed over.
ghost use Rattle.std.specs.Prelude.{◌≡◌, List, ◌++◌, ℕ, length};
ghost use Rattle.rules.specs.Rule.{Rule};
ghost use Rattle.rules.specs.Table.{Node};
ghost use Rattle.rules.specs.Steps.{for_each};
ghost use Rattle.rules.specs.Calls.{words};
ghost use Rattle.steps.specs.There.{In};
ghost use Rattle.rules.proofs.Disjuncts.{nears};
ghost use Rattle.steps.specs.Disjoining.{Disjoining, SomeDisjoining, Disjoined, AtBounds, SomeAtBounds};
ghost use Rattle.steps.specs.Disjoining.{FullFrom, FullBlock, SomeFullBlock, FarToCome};

use crate::{blocks, disjunct, sums};
use builder::push::State;
use folding::answers;
use folding::answers::Folded;
use literals::change::Change;
use tables::part::Part;

// The full bodies of one j, from that at the last bound to that at the first. Bit m of a bound's mask tells where its
// body is false. By index, as the masks are made anew for each block, of bounds that stay.
fn at_bounds(
    part: Part,
    x: usize,
    j: usize,
    m: usize,
    places: &[u32],
    masks: &[u64],
    out: &mut [u8],
    b: State,
    others: Folded,
) -> Folded
    requires { In SomeAtBounds part x j m places.now masks.now (words out.old) b others }
    ensures { (P : ℕ) (a : Rule) (before l : List Rule) (ds : List Node)
        → In AtBounds part.entry x j m places.now masks.now (words out.old) b P a before l ds others
        → In Disjoined part.entry x P (words out.new) b a before (nears x a j ++ l) ds result }
{
    let mut f = others;
    for i in (0..places.len()).rev() {
        if blocks::has(masks[i], m) {
            continue;
        }
        let u = sums::above(part.bodies, places[i] as usize, x, j);
        f = disjunct::disjunct(part, Change::Full(x, &u), out, b, f);
    }
    f
}

// The full bodies of one block, from those of j = high to those of j = low + 1.
fn full_block(
    part: Part,
    x: usize,
    low: usize,
    high: usize,
    places: &[u32],
    masks: &[u64],
    out: &mut [u8],
    b: State,
    others: Folded,
) -> Folded
    requires { In SomeFullBlock part x low high places.now masks.now (words out.old) b others }
    ensures { (P : ℕ) (a : Rule) (ds : List Node)
        → In FullBlock part.entry x low high places.now masks.now (words out.old) b P a ds others
        → In FullFrom part.entry x P (words out.new) b a ds low result }
{
    let mut f = others;
    for j in (low + 1..=high).rev() {
        let m = j - low - 1;
        f = at_bounds(part, x, j, m, places, masks, out, b, f);
    }
    f
}

// The full bodies, block by block, from j = P to j = 1. A true one ends the work. The masks of one block after another
// stand in `masks`.
fn full_blocks(
    part: Part,
    x: usize,
    period: usize,
    places: &[u32],
    masks: &mut [u64],
    out: &mut [u8],
    b: State,
) -> Folded
    requires { In SomeDisjoining part x period places.now (words out.old) b × (length masks.old ≡ length places.now) }
    ensures { (a : Rule) (ds : List Node)
        → In Disjoining part.entry x period places.now (words out.old) b a ds
        → In FarToCome part.entry x period (words out.new) b a (for_each 1 period (nears x a)) ds result }
{
    let mut j = period;
    let mut f = Folded::Known(false);
    // a block at a time, and no count of an index; so in `far` and `survey`, around another turn
    while 0 < j {
        if answers::settles(false, f) {
            return f;
        }
        let low = j.saturating_sub(blocks::WIDTH);
        blocks::false_at_bounds(part, x, low + 1, places, masks);
        f = full_block(part, x, low, j, places, masks, out, b, f);
        j = low;
    }
    f
}

// The full bodies: none without a bound. Most bodies have few bounds, and few masks are made sooner than many.
pub fn full_bodies(
    part: Part,
    x: usize,
    period: usize,
    places: &[u32],
    out: &mut [u8],
    b: State,
) -> Folded
    requires { In SomeDisjoining part x period places.now (words out.old) b }
    ensures { (a : Rule) (ds : List Node)
        → In Disjoining part.entry x period places.now (words out.old) b a ds
        → In FarToCome part.entry x period (words out.new) b a (for_each 1 period (nears x a)) ds result }
{
    let k = places.len();
    if k == 0 {
        return Folded::Known(false);
    }
    if k <= 16 {
        let mut masks = [0u64; 16];
        return full_blocks(part, x, period, places, &mut masks[..k], out, b);
    }
    let mut masks = [0u64; 1365];
    full_blocks(part, x, period, places, &mut masks[..k], out, b)
}
