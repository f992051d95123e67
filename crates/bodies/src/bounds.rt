// "collect the list of lower bounds, each once, in order of first place".
ghost use Rattle.std.specs.Prelude.{ℕ, ◌<◌, ◌≤◌, length};
ghost use Rattle.rules.specs.Steps.{bounds as bounds_of};
ghost use Rattle.rules.specs.Calls.{words as words_of};
ghost use Rattle.bodies.specs.Body.{SomeBody, WhicheverRule, BoundsAt, RoomForBounds};
ghost use Rattle.bodies.specs.Cursor.{WhicheverLiteral, SomeLiteral};
ghost use Rattle.bodies.specs.Bounds.{GivesBound, SomeKept, KeptWith};

use crate::bound::Bound;
use crate::cursor::Literals;
use tables::kind::Kind;
use tables::words;

// Whether the literal at this place is 0 < x+r.
fn gives_bound(bodies: &[u8], place: usize, x: usize) -> bool
    requires { ((end : ℕ) × SomeLiteral (words_of bodies.now) place end) × (x ≤ 6) }
    ensures { (end : ℕ)
        → WhicheverLiteral (words_of bodies.now) place end (λ t s ls. GivesBound x t s result) }
{
    match Kind::at(bodies, place) {
        Kind::Positive => words::natural(bodies, place + 1 + x) == 1,
        _ => false,
    }
}

// Keeps the bound of the literal at this place behind the first k, and its place, unless it is one of them; and how
// many there are then. Bounds and places stay apart, and k beside them: the paper's list of forms has both.
fn keep(bodies: &[u8], place: usize, bounds: &mut [Bound], places: &mut [u32], k: usize) -> usize
    requires { SomeKept (words_of bodies.now) place bounds.old places.old k }
    ensures { KeptWith (words_of bodies.now) place bounds.old places.old k
        bounds.new places.new result }
{
    let bound = Bound::of(bodies, place);
    if bound.is_among(bodies, &bounds[..k]) {
        return k;
    }
    bounds[k] = bound;
    places[k] = place as u32;
    k + 1
}

// The bounds, each once, and their places; and how many. A repeat is looked for among all that are kept, so this is
// quadratic in the bounds.
fn gather(bodies: &[u8], end: usize, x: usize, bounds: &mut [Bound], places: &mut [u32]) -> usize
    requires { SomeBody (words_of bodies.now) end × (x ≤ 6)
        × RoomForBounds (words_of bodies.now) end x (length bounds.old)
        × RoomForBounds (words_of bodies.now) end x (length places.old) }
    ensures { WhicheverRule (words_of bodies.now) end
        (λ a. BoundsAt (words_of bodies.now) x places.new result (bounds_of x a)) }
{
    let mut k: usize = 0;
    for place in Literals::of(bodies, end) {
        if gives_bound(bodies, place, x) {
            k = keep(bodies, place, bounds, places, k);
        }
    }
    k
}

// Bodies of 16,384 words have 1,638 literals at most: eight words each, and two for each join between them.
const MOST_BOUNDS: usize = 1638;

// The places of the literals that give the bounds, at the start of `places`; and how many.
pub fn collect(bodies: &[u8], end: usize, x: usize, places: &mut [u32]) -> usize
    requires { SomeBody (words_of bodies.now) end × (1 ≤ x) × (x ≤ 6)
        × RoomForBounds (words_of bodies.now) end x (length places.old) }
    ensures { WhicheverRule (words_of bodies.now) end
        (λ a. BoundsAt (words_of bodies.now) x places.new result (bounds_of x a)) }
{
    let mut bounds = [Bound {
        place: 0,
        constant: 0,
    }; MOST_BOUNDS];
    gather(bodies, end, x, &mut bounds, places)
}
