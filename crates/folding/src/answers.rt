// The answers of a walk that folds: joined, negated, bound.
ghost use Rattle.std.specs.Prelude.{◌≡◌, List, ◌++◌, ◌≤◌};
ghost use Rattle.rules.specs.Sum.{limit};
ghost use Rattle.rules.specs.Rule.{Rule, Bind};
ghost use Rattle.rules.specs.Table.{Node, nodes};
ghost use Rattle.rules.specs.Fold.{fold_not, fold_join};
ghost use Rattle.rules.specs.Calls.{words};
ghost use Rattle.builder.specs.Built.{Built, junction, quantifier};
ghost use Rattle.folding.specs.Answers.{Gives, Answered, Sides, SomeSides, after as after_of, settled};

use builder::push;
use builder::push::State;

// A truth value, of which nothing is put; or the state with the rule's nodes in front. An enum of its own: neither is
// an error and neither is nothing, so that Result and Option would say less.
#[derive(Clone, Copy)]
pub enum Folded {
    Known(bool),
    Pushed(State),
}

// The state after an answer.
#[tactic(auto, unfolding(crate::specs::Answers::after))]
pub fn after(b: State, f: Folded) -> State
    ensures { result ≡ after_of b f }
{
    match f {
        Folded::Known(_) => b,
        Folded::Pushed(c) => c,
    }
}

// Whether this answer of one side alone settles an and (`both`), or an or: false an and, true an or.
#[tactic(auto, unfolding(crate::specs::Answers::settled))]
pub fn settles(both: bool, f: Folded) -> bool
    ensures { result ≡ settled both f }
{
    match f {
        Folded::Known(v) => v != both,
        Folded::Pushed(_) => false,
    }
}

// "An and with a false side is false, one with a true side is its other side; or is the dual." The right side, which
// was answered first, does not settle it.
pub fn joined(out: &mut [u8], both: bool, b: State, right: Folded, left: Folded) -> Folded
    requires { SomeSides (words out.old) both b right left }
    ensures { (x y : Rule) (ds : List Node) → Sides (words out.old) both b ds x y right left
        → Gives (words out.new) b ds (fold_join (junction both) y x) result }
{
    match (right, left) {
        (_, Folded::Known(_)) if settles(both, left) => left,
        (_, Folded::Known(_)) => right,
        (Folded::Known(_), Folded::Pushed(_)) => left,
        (Folded::Pushed(a), Folded::Pushed(c)) => {
            let distance = c.nodes - a.nodes + 1;
            Folded::Pushed(push::join(out, c, both, distance))
        }
    }
}

// "Not of true is false and the reverse."
pub fn negated(out: &mut [u8], b: State, inner: Folded) -> Folded
    requires { Answered (words out.old) b inner 1 }
    ensures { (x : Rule) (ds : List Node) → Gives (words out.old) b ds x inner
        → Gives (words out.new) b ds (fold_not x) result }
{
    match inner {
        Folded::Known(v) => Folded::Known(!v),
        Folded::Pushed(c) => Folded::Pushed(push::not(out, c)),
    }
}

// A truth value is put after all where it stands alone or under a quantifier.
pub fn stood(out: &mut [u8], b: State, inner: Folded) -> State
    requires { Answered (words out.old) b inner 0 }
    ensures { (x : Rule) (ds : List Node) → Gives (words out.old) b ds x inner
        → Built (words out.new) result (nodes x ++ ds) }
{
    match inner {
        Folded::Known(v) => push::constant(out, b, v),
        Folded::Pushed(c) => c,
    }
}

// For some (`some`) or for all, over setting v.
pub fn bound(out: &mut [u8], b: State, some: bool, v: usize, inner: Folded) -> Folded
    requires { Answered (words out.old) b inner 2 × (v ≤ limit) }
    ensures { (x : Rule) (ds : List Node) → Gives (words out.old) b ds x inner
        → Gives (words out.new) b ds (Bind (quantifier some) v x) result }
{
    let c = stood(out, b, inner);
    Folded::Pushed(push::bind(out, c, some, v))
}
