// Nots and quantifiers one under the other, gone down and up by a loop.
ghost use Rattle.std.specs.Prelude.{◌≡◌, List, ℕ, ◌≤◌, ℤ};
ghost use Rattle.rules.specs.Rule.{Rule};
ghost use Rattle.rules.specs.Table.{Node, most_words};
ghost use Rattle.rules.specs.Calls.{words as words_of};
ghost use Rattle.tables.specs.Standing.{Stands};
ghost use Rattle.folding.specs.Answers.{Gives};
ghost use Rattle.walks.specs.Chain.{link_words, ChainOf, SomeStands, wrap, Over, SomeOver, WrappingIn, SomeWrapping};

use builder::push::State;
use folding::answers;
use folding::answers::Folded;
use tables::extent::Extent;
use tables::kind::Kind;
use tables::part::Part;
use tables::words;

// No table has more nodes: "over 16,384 words".
pub const MOST_NODES: usize = 16384;

// The words of a not and of a quantifier; 0, and no Option, for every other kind: a kind of no words ends a chain.
pub fn link(kind: Kind) -> usize
    ensures { result ≡ link_words kind }
{
    match kind {
        Kind::Not => 1,
        Kind::ForSome | Kind::ForAll => 2,
        _ => 0,
    }
}

// The chain at the start of these bodies, as far as it has at most so many nodes.
pub fn chain(bodies: &[u8], most: usize) -> Extent
    requires { SomeStands (words_of bodies.now) × (most ≤ most_words) }
    ensures { (es : List ℤ) (n p : ℕ) (a : Rule) → Stands es (words_of bodies.now) n p a
        → ChainOf most a result }
{
    let mut words = 0;
    for nodes in 0..most {
        let width = link(Kind::at(bodies, words));
        if width == 0 {
            return Extent { nodes, words };
        }
        words += width;
    }
    Extent { nodes: most, words }
}

// The not or the quantifier at this place of the bodies, over what was answered.
#[inline(always)]
fn over(bodies: &[u8], at: usize, out: &mut [u8], b: State, inner: Folded) -> Folded
    requires { SomeOver (words_of bodies.now) at (words_of out.old) b inner }
    ensures { (es : List ℤ) (n p : ℕ) (a f : Rule) (ds : List Node)
        → Over es (words_of bodies.now) n p at (words_of out.old) b a f ds inner
        → Gives (words_of out.new) b ds (wrap 1 a f) result }
{
    match Kind::at(bodies, at) {
        Kind::Not => answers::negated(out, b, inner),
        Kind::ForSome => answers::bound(out, b, true, words::natural(bodies, at + 1), inner),
        _ => answers::bound(out, b, false, words::natural(bodies, at + 1), inner),
    }
}

// The first k nodes of the rule of this part, over what was answered under them.
#[inline(always)]
pub fn wrapped(part: Part, k: usize, out: &mut [u8], b: State, inner: Folded) -> Folded
    requires { SomeWrapping (words_of part.entries.now) (words_of part.bodies.now) part.node part.place k
        (words_of out.old) b inner }
    ensures { (a f : Rule) (ds : List Node) → WrappingIn part.entry k (words_of out.old) b a f ds inner
        → Gives (words_of out.new) b ds (wrap k a f) result }
{
    let mut f = inner;
    for i in (0..k).rev() {
        let at = words::natural(part.entries, i) - part.place;
        f = over(part.bodies, at, out, b, f);
    }
    f
}
