// Nodes put in front of those that are built: of each the last word first, its kind last.
ghost use Rattle.std.specs.Prelude.{◌≡◌, List, [], ◌∷◌, ◌++◌, ◌+◌, ◌<◌, ◌≤◌, leb, length, ℤ, pos};
ghost use Rattle.rules.specs.Sum.{limit};
ghost use Rattle.rules.specs.Rule.{Rule, divisible};
ghost use Rattle.rules.specs.Table.{Node, constant_node, join_node, not_node, literal_node, bind_node};
ghost use Rattle.rules.specs.Table.{most_words, body as body_of, nodes, size};
ghost use Rattle.rules.specs.Calls.{words};
ghost use Rattle.tables.specs.Kinds.{number_of};
ghost use Rattle.builder.specs.Built.{Ends, Built, Countable, most_counted, unplaced};
ghost use Rattle.builder.specs.Built.{junction, quantifier, compared};

use crate::front;
use tables::kind::Kind;

// How many words the nodes that are built have, and how many nodes. By value: an earlier state, taken up again, is what
// was built then.
#[derive(Clone, Copy)]
pub struct State {
    pub used: usize,
    pub nodes: usize,
}

// The state in which nothing is built.
pub fn start() -> State
    ensures { (ws : List ℤ) → Built ws result [] }
{
    State { used: 0, nodes: 0 }
}

// Whether the table of the rule that is built has room in so many words: its count, its places, its bodies.
pub fn fits(b: State, room: usize) -> bool
    requires { Countable b 0 }
    ensures { (ws : List ℤ) (x : Rule) → Built ws b (nodes x) → result ≡ leb (size x) room }
{
    b.nodes + 1 + b.used <= room
}

// A node of this kind: its kind in front of its fields, which are put. With them u words are used. The functions below
// take a truth value for one of two kinds, which are all that each admits: a Kind would ask more of a caller.
fn node(out: &mut [u8], b: State, u: usize, kind: Kind) -> State
    requires { (u < most_counted) × (b.nodes < most_counted) }
    ensures { (d : Node) (fields : List ℤ) (ds : List Node) → body_of 0 d ≡ pos (number_of kind) ∷ fields
        → b.nodes ≡ length ds → Ends (words out.old) u (fields ++ unplaced ds)
        → Built (words out.new) result (d ∷ ds) }
{
    State {
        used: front::word(out, u, kind as i32),
        nodes: b.nodes + 1,
    }
}

// True or false.
pub fn constant(out: &mut [u8], b: State, v: bool) -> State
    requires { Countable b 1 }
    ensures { (ds : List Node) → Built (words out.old) b ds
        → Built (words out.new) result (constant_node v ∷ ds) }
{
    let kind = if v { Kind::True } else { Kind::False };
    node(out, b, b.used, kind)
}

// An and or an or, whose right child stands so far behind it.
pub fn join(out: &mut [u8], b: State, both: bool, right: usize) -> State
    requires { Countable b 2 × (right ≤ b.used + 1) × (length (words out.old) ≤ most_words) }
    ensures { (ds : List Node) → Built (words out.old) b ds
        → Built (words out.new) result (join_node (junction both) (pos right) ∷ ds) }
{
    let u = front::number(out, b.used, right);
    let kind = if both { Kind::And } else { Kind::Or };
    node(out, b, u, kind)
}

// A not.
pub fn not(out: &mut [u8], b: State) -> State
    requires { Countable b 1 }
    ensures { (ds : List Node) → Built (words out.old) b ds
        → Built (words out.new) result (not_node ∷ ds) }
{
    node(out, b, b.used, Kind::Not)
}

// For some or for all, over setting v.
pub fn bind(out: &mut [u8], b: State, some: bool, v: usize) -> State
    requires { Countable b 2 × (v ≤ limit) }
    ensures { (ds : List Node) → Built (words out.old) b ds
        → Built (words out.new) result (bind_node (quantifier some) v ∷ ds) }
{
    let u = front::number(out, b.used, v);
    let kind = if some { Kind::ForSome } else { Kind::ForAll };
    node(out, b, u, kind)
}

// A sum T compared with 0: T = 0, or 0 < T.
pub fn compared(out: &mut [u8], b: State, zero: bool, sum: &[i32]) -> State
    requires { Countable b (1 + length sum.now) }
    ensures { (ds : List Node) → Built (words out.old) b ds
        → Built (words out.new) result (literal_node (compared zero) sum.now ∷ ds) }
{
    let u = front::given(out, b.used, sum);
    let kind = if zero { Kind::Zero } else { Kind::Positive };
    node(out, b, u, kind)
}

// k divides a sum T, or does not.
#[inline(always)]
pub fn divided(out: &mut [u8], b: State, yes: bool, k: usize, sum: &[i32]) -> State
    requires { Countable b (2 + length sum.now) × (k ≤ limit) }
    ensures { (ds : List Node) → Built (words out.old) b ds
        → Built (words out.new) result (literal_node (divisible yes k) sum.now ∷ ds) }
{
    let u = front::given(out, b.used, sum);
    let u = front::number(out, u, k);
    let kind = if yes {
        Kind::Divisible
    } else {
        Kind::Indivisible
    };
    node(out, b, u, kind)
}
