// A rule where it stands in a table: what every walk is given, and hands on of its sides.
ghost use Rattle.std.specs.Prelude.{◌≡◌, ◌+◌, ◌<◌, ◌≤◌, length};
ghost use Rattle.rules.specs.Rule.{Junction, Rule, Join};
ghost use Rattle.rules.specs.Table.{most_words, count};
ghost use Rattle.rules.specs.Calls.{words as words_of};
ghost use Rattle.rules.proofs.Sizes.{weight};
ghost use Rattle.tables.specs.Kinds.{kind_of};
ghost use Rattle.tables.specs.Parts.{PartOf, Behind, RuleIn, SomeRuleIn, JoinIn, SideIn, StandsIn, StandingJoinIn};

use crate::kind::Kind;
use crate::words;

// The entries and the bodies from those of its root on, and the root's number and place.
#[derive(Clone, Copy)]
pub struct Part<'a> {
    pub entries: &'a [u8],
    pub bodies: &'a [u8],
    pub node: usize,
    pub place: usize,
}

impl<'a> Part<'a> {
    // The part of a table that starts with this node, whose body has this place.
    pub fn at(table: &'a [u8], node: usize, place: usize) -> Part<'a>
        requires { (node < length (words_of table.now)) × (place ≤ length (words_of table.now))
            × (length (words_of table.now) ≤ most_words) }
        ensures { PartOf (words_of table.now) node place result }
    {
        Part {
            entries: &table[(node + 1) * 4..],
            bodies: &table[place * 4..],
            node,
            place,
        }
    }

    // What stands behind so many of its nodes, which have so many words.
    pub fn behind(self, nodes: usize, words: usize) -> Part<'a>
        requires { (nodes ≤ length (words_of self.entries.now)) × (words ≤ length (words_of self.bodies.now))
            × (self.node + nodes ≤ most_words) × (self.place + words ≤ most_words) }
        ensures { Behind self.entry nodes words result }
    {
        Part {
            entries: &self.entries[nodes * 4..],
            bodies: &self.bodies[words * 4..],
            node: self.node + nodes,
            place: self.place + words,
        }
    }

    // The kind of its root.
    pub fn kind(self) -> Kind
        requires { SomeRuleIn self }
        ensures { (a : Rule) → RuleIn self.entry a → result ≡ kind_of a }
    {
        Kind::at(self.bodies, 0)
    }

    // The left side of an and or an or: its root is the next node.
    pub fn left(self) -> Part<'a>
        requires { JoinIn self }
        ensures { (j : Junction) (a b : Rule) → RuleIn self.entry (Join j a b) → SideIn self.entry 1 2 a result }
    {
        self.behind(1, 2)
    }

    // "the right child is the first node after the left subtree": its number is in the join's body, its place in its
    // entry. Of any join that stands there, well formed or not.
    pub fn behind_left(self) -> Part<'a>
        requires { StandingJoinIn self }
        ensures { (j : Junction) (a b : Rule) → StandsIn self.entry (Join j a b)
            → Behind self.entry (1 + count a) (2 + weight a) result }
    {
        let nodes = words::natural(self.bodies, 1) - self.node;
        let place = words::natural(self.entries, nodes);
        self.behind(nodes, place - self.place)
    }

    // The right side of an and or an or.
    pub fn right(self) -> Part<'a>
        requires { JoinIn self }
        ensures { (j : Junction) (a b : Rule) → RuleIn self.entry (Join j a b)
            → SideIn self.entry (1 + count a) (2 + weight a) b result }
    {
        self.behind_left()
    }
}
