// How many nodes and words a rule has that stands in a table.
ghost use Rattle.std.specs.Prelude.{◌≡◌, MatchOption};
ghost use Rattle.rules.specs.Rule.{Rule};
ghost use Rattle.rules.specs.Table.{count};
ghost use Rattle.rules.specs.Laws.{WellFormed};
ghost use Rattle.rules.specs.Calls.{words as words_of};
ghost use Rattle.rules.proofs.Sizes.{weight};
ghost use Rattle.tables.specs.Parts.{RuleIn, SomeRuleIn};
ghost use Rattle.tables.specs.Standing.{Stands, Standing, Few};
ghost use Rattle.bodies.specs.Span.{Leaf, EndsWith};

pub use tables::extent::Extent;
use tables::kind::Kind;
use tables::part::Part;

// The part of a rule's last child: the right one of an and or or, else the only one, where it has one.
#[tactic(auto, using(crate::proofs::SpanLaws::by_kind))]
fn last_child(part: Part<'_>) -> Option<Part<'_>>
    requires { SomeRuleIn part }
    ensures { (a : Rule) → RuleIn part.entry a → MatchOption result (Leaf a) (EndsWith part.entry a) }
{
    let kind = part.kind();
    match kind {
        Kind::And | Kind::Or => Some(part.right()),
        Kind::Not | Kind::ForSome | Kind::ForAll => Some(part.behind(1, kind.width())),
        _ => None,
    }
}

// A rule ends where its last child does. The loop counts no index.
pub fn extent(part: Part<'_>) -> Extent
    requires { SomeRuleIn part }
    ensures { (a : Rule) → RuleIn part.entry a → (result.nodes ≡ count a) × (result.words ≡ weight a) }
{
    let mut last = part;
    while let Some(child) = last_child(last) {
        last = child;
    }
    Extent {
        nodes: last.node + 1 - part.node,
        words: last.place + last.kind().width() - part.place,
    }
}

// That of the rule whose entries and bodies these are, from its root on, with the root's number and place: for a caller
// that has no part of a table. The steps have one, and take `extent`.
pub fn span(entries: &[u8], bodies: &[u8], node: usize, place: usize) -> Extent
    requires { Standing (words_of entries.now) (words_of bodies.now) node place
        × Few (words_of entries.now) (words_of bodies.now) node place }
    ensures { (a : Rule)
        → Stands (words_of entries.now) (words_of bodies.now) node place a → WellFormed a
        → (result.nodes ≡ count a) × (result.words ≡ weight a) }
{
    extent(Part {
        entries,
        bodies,
        node,
        place,
    })
}
