// A lower bound: the literal that gives it, and when two are the same.
ghost use Rattle.std.specs.Prelude.{◌≡◌, ℕ, ◌+◌, ◌<◌, ◌≤◌, length, get_or, MatchOption};
ghost use Rattle.rules.specs.Rule.{Whether};
ghost use Rattle.rules.specs.Calls.{words as words_of};
ghost use Rattle.bodies.specs.Bounds.{Alike, none, OfLiteral, Known, First};

use tables::words;

// "A literal 0 < x+r gives the bound −r": where the literal stands, and the bits of its constant, by which most bounds
// are told apart without a look at the table.
#[derive(Clone, Copy)]
pub struct Bound {
    pub place: u32,
    pub constant: u32,
}

// Whether the same seven words stand behind the words at two places.
#[tactic(auto, using(tables::proofs::WordLaws::words_length))]
fn alike(bodies: &[u8], p: usize, q: usize) -> bool
    requires { (p + 8 ≤ length (words_of bodies.now)) × (q + 8 ≤ length (words_of bodies.now))
        × (length (words_of bodies.now) ≤ 16384) }
    ensures { Whether result (Alike (words_of bodies.now) p q) }
{
    bodies[(p + 1) * 4..(p + 8) * 4] == bodies[(q + 1) * 4..(q + 8) * 4]
}

impl Bound {
    // The one that the literal at this place gives.
    pub fn of(bodies: &[u8], place: usize) -> Bound
        requires { (place + 8 ≤ length (words_of bodies.now)) × (length (words_of bodies.now) ≤ 16384) }
        ensures { (result.place ≡ place) × OfLiteral (words_of bodies.now) result }
    {
        Bound {
            place: place as u32,
            constant: words::natural(bodies, place + 1) as u32,
        }
    }

    // Whether it is the same as another.
    fn same(self, bodies: &[u8], other: Bound) -> bool
        requires { OfLiteral (words_of bodies.now) self × OfLiteral (words_of bodies.now) other
            × (length (words_of bodies.now) ≤ 16384) }
        ensures { Whether result (Alike (words_of bodies.now) self.place other.place) }
    {
        self.constant == other.constant && alike(bodies, self.place as usize, other.place as usize)
    }

    // The place of the first of these that is the same, if one is.
    pub fn first(self, bodies: &[u8], bounds: &[Bound]) -> Option<usize>
        requires { OfLiteral (words_of bodies.now) self
            × ((i : ℕ) → i < length bounds.now → OfLiteral (words_of bodies.now) (get_or bounds.now i none))
            × (length (words_of bodies.now) ≤ 16384) }
        ensures { MatchOption result (¬ (Known (words_of bodies.now) bounds.now self))
            (First (words_of bodies.now) bounds.now self) }
    {
        bounds.iter().position(|b| b.same(bodies, self))
    }

    // Whether it is one of these.
    pub fn is_among(self, bodies: &[u8], bounds: &[Bound]) -> bool
        requires { OfLiteral (words_of bodies.now) self
            × ((i : ℕ) → i < length bounds.now → OfLiteral (words_of bodies.now) (get_or bounds.now i none))
            × (length (words_of bodies.now) ≤ 16384) }
        ensures { Whether result (Known (words_of bodies.now) bounds.now self) }
    {
        self.first(bodies, bounds).is_some()
    }
}
