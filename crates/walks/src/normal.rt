// Step 1, normal form: "push every not down to the literals, by De Morgan. Two nots cancel." The plain walk and the
// walk under a not call each other: two functions, a form that the paper requires. A run of nots is passed by one call:
// for each and or or that is nested there are at most two.
ghost use Rattle.std.specs.Prelude.{true, false, List};
ghost use Rattle.rules.specs.Rule.{Rule};
ghost use Rattle.rules.specs.Table.{Node};
ghost use Rattle.rules.specs.Steps.{normal};
ghost use Rattle.rules.specs.Calls.{words as words_of};
ghost use Rattle.walks.specs.Walk.{SomeRule};
ghost use Rattle.rules.specs.Laws.{QuantifierFree};
ghost use Rattle.tables.specs.Parts.{RuleIn};
ghost use Rattle.walks.specs.Normal.{SomeNot, UnderNots, NormalReadyIn, Normalled};

use crate::{both, chain, normal_literal};
use builder::push::State;
use folding::answers;
use folding::answers::Folded;
use tables::kind::Kind;
use tables::part::Part;

// What stands under the run of nots that this part starts with, and whether their number is odd.
fn under_nots(part: Part) -> (Part, bool)
    requires { SomeNot part }
    ensures { (a : Rule) → RuleIn part.entry a → QuantifierFree a → UnderNots part.entry a result.0 result.1 }
{
    let nots = chain::chain(part.bodies, chain::MOST_NODES);
    (part.behind(nots.nodes, nots.words), nots.nodes % 2 == 1)
}

// The rule of this part in normal form for the setting x; none where a number of it passes the limit. Both sides of a
// join are walked, so that every number is looked at.
#[cycle(plain_under)]
pub fn plain(part: Part, x: usize, out: &mut [u8], b: State) -> Option<Folded>
    requires { SomeRule (NormalReadyIn part x (words_of out.old) b) }
    ensures { (a : Rule) (ds : List Node) → NormalReadyIn part.entry x (words_of out.old) b a ds
        → Normalled (words_of out.new) b ds (normal true x a) result }
{
    let kind = part.kind();
    match kind {
        Kind::False | Kind::True => return Some(Folded::Known(kind.is_true())),
        Kind::And | Kind::Or => {}
        Kind::Not => {
            let (inner, odd) = under_nots(part);
            if odd {
                return under(inner, x, out, b);
            }
            return plain(inner, x, out, b);
        }
        _ => return normal_literal::literal(true, part.bodies, x, out, b),
    }
    let both = kind.is_and();
    let right = plain(part.right(), x, out, b)?;
    let left = plain(part.left(), x, out, answers::after(b, right))?;
    Some(both::both(out, both, b, right, left))
}

// Its opposite: an and becomes an or, an or becomes an and.
#[cycle(plain_under)]
pub fn under(part: Part, x: usize, out: &mut [u8], b: State) -> Option<Folded>
    requires { SomeRule (NormalReadyIn part x (words_of out.old) b) }
    ensures { (a : Rule) (ds : List Node) → NormalReadyIn part.entry x (words_of out.old) b a ds
        → Normalled (words_of out.new) b ds (normal false x a) result }
{
    let kind = part.kind();
    match kind {
        Kind::False | Kind::True => return Some(Folded::Known(!kind.is_true())),
        Kind::And | Kind::Or => {}
        Kind::Not => {
            let (inner, odd) = under_nots(part);
            if odd {
                return plain(inner, x, out, b);
            }
            return under(inner, x, out, b);
        }
        _ => return normal_literal::literal(false, part.bodies, x, out, b),
    }
    let both = !kind.is_and();
    let right = under(part.right(), x, out, b)?;
    let left = under(part.left(), x, out, answers::after(b, right))?;
    Some(both::both(out, both, b, right, left))
}
