// "While a quantifier remains, take the one with the greatest node number".
ghost use Rattle.std.specs.Prelude.{◌≡◌};
ghost use Rattle.rules.specs.Rule.{Rule};
ghost use Rattle.rules.specs.Table.{count};
ghost use Rattle.rules.specs.Calls.{words as words_of};
ghost use Rattle.tables.specs.Standing.{TableAt};
ghost use Rattle.tables.specs.Last.{LastAt};

use crate::kind::Kind;
use crate::words;

// Where a node is: its number and its place.
#[derive(Clone, Copy)]
pub struct Spot {
    pub node: usize,
    pub place: usize,
}

// The last quantifier of the table t, which has n nodes; or there is none. Each body is found by its entry, so that no
// read waits for the width of another body.
pub fn last(t: &[u8], n: usize) -> Option<Spot>
    requires { (r : Rule) × TableAt (words_of t.now) r × (n ≡ count r) }
    ensures { (r : Rule) → TableAt (words_of t.now) r → n ≡ count r → LastAt r result }
{
    for i in (0..n).rev() {
        let place = words::natural(t, i + 1);
        if Kind::at(t, place).binds() {
            return Some(Spot { node: i, place });
        }
    }
    None
}
