// Where the chosen quantifier of a step table stands.
ghost use Rattle.std.specs.Prelude.{◌≡◌};
ghost use Rattle.rules.specs.Rule.{Quantifier, Rule};
ghost use Rattle.rules.specs.Calls.{words as words_of};
ghost use Rattle.tables.specs.Kinds.{bind_kind};
ghost use Rattle.elimination.specs.Stepping.{HasTable, SomeTable, is_some, LocatedIn};

use crate::parts;
use bodies::span;
use tables::kind::Kind;
use tables::quantifiers::Spot;
use tables::{quantifiers, words};

// Its number and its place, whether it is a for some, its setting, and how many words its body has.
#[derive(Clone, Copy)]
pub struct Quantified {
    pub node: usize,
    pub place: usize,
    pub some: bool,
    pub setting: usize,
    pub end: usize,
}

// Whether a quantifier of this kind is a for some.
fn for_some(kind: Kind) -> bool
    ensures { (q : Quantifier) → kind ≡ bind_kind q → result ≡ is_some q }
{
    matches!(kind, Kind::ForSome)
}

// "its body has none", so that it is a rule without quantifiers.
pub fn locate(table: &[u8]) -> Option<Quantified>
    requires { SomeTable (words_of table.now) }
    ensures { (r : Rule) → HasTable (words_of table.now) r → LocatedIn r result }
{
    let Spot { node, place } = quantifiers::last(table, words::natural(table, 0))?;
    let extent = span::extent(parts::body(table, node, place));
    Some(Quantified {
        node,
        place,
        some: for_some(Kind::at(table, place)),
        setting: words::natural(table, place + 1),
        end: extent.words,
    })
}
