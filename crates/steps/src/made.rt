// What each step puts in the place of the chosen quantifier.
ghost use Rattle.std.specs.Prelude.{◌≡◌, List, ℕ, ◌≤◌};
ghost use Rattle.rules.specs.Sum.{setting};
ghost use Rattle.rules.specs.Rule.{Quantifier, Rule};
ghost use Rattle.rules.specs.Table.{Node};
ghost use Rattle.rules.specs.Fold.{fold as fold_of};
ghost use Rattle.rules.specs.Eliminate.{most_period};
ghost use Rattle.rules.specs.Calls.{words as words_of};
ghost use Rattle.folding.specs.Answers.{Gives};
ghost use Rattle.steps.specs.There.{In};
ghost use Rattle.steps.specs.Making.{new_of, Making, SomeMaking, BodyMaking, SomeBodyMaking};
ghost use Rattle.steps.specs.Making.{FairMaking, SomeFairMaking};
ghost use Rattle.steps.specs.declared.made.Step.TheVariants.{ForAll, NormalForm, CommonFactor};

use crate::disjunction;
use builder::push::State;
use folding::answers;
use folding::answers::Folded;
use literals::change::Change;
use tables::kind::Kind;
use tables::part::Part;
use tables::words;
use walks::{fold, normal, put};

// "A for-all is first replaced by not, for some, not"; normal form; the common factor D; the disjunction over the
// period P, of a body whose bounds' literals are at these places; the truth value that it is known to fold to.
// An enum, and not a type for each with a trait: which of the last two step 3 makes, its survey tells as it runs.
#[derive(Clone, Copy)]
pub enum Step<'a> {
    ForAll,
    NormalForm,
    CommonFactor(usize),
    Disjunction(usize, &'a [u32]),
    Truth(bool),
}

// "not, for some, not" of the body that stands there.
fn by_some(part: Part, x: usize, out: &mut [u8], b: State) -> Folded
    requires { In SomeBodyMaking part ForAll x (words_of out.old) b }
    ensures { (a : Rule) (ds : List Node) → In BodyMaking part.entry ForAll x (words_of out.old) b a ds
        → Gives (words_of out.new) b ds (fold_of (new_of ForAll x a)) result }
{
    let body = fold::fold(part, Change::Same, out, b);
    let opposite = answers::negated(out, b, body);
    let some = answers::bound(out, b, true, x, opposite);
    answers::negated(out, b, some)
}

// Step 1: for some x the body in normal form.
fn normalled(part: Part, x: usize, out: &mut [u8], b: State) -> Folded
    requires { In SomeBodyMaking part NormalForm x (words_of out.old) b }
    ensures { (a : Rule) (ds : List Node) → In BodyMaking part.entry NormalForm x (words_of out.old) b a ds
        → Gives (words_of out.new) b ds (fold_of (new_of NormalForm x a)) result }
{
    // never none: `requires` has it that no number passes the limit
    let Some(body) = normal::plain(part, x, out, b) else {
        return Folded::Known(false);
    };
    answers::bound(out, b, true, x, body)
}

// The sum that is the setting x.
fn unit(x: usize) -> [i32; 7]
    requires { x ≤ 6 }
    ensures { result ≡ setting x }
{
    let mut sum = [0; 7];
    sum[x] = 1;
    sum
}

// Step 2: for some x the body scaled, and "D divides x .. on the right", which is put first. It is never false, so
// it does not settle the and.
fn scaled(part: Part, x: usize, d: usize, out: &mut [u8], b: State) -> Folded
    requires { In SomeBodyMaking part (CommonFactor d) x (words_of out.old) b × (1 ≤ d) × (d ≤ most_period) }
    ensures { (a : Rule) (ds : List Node) → In BodyMaking part.entry (CommonFactor d) x (words_of out.old) b a ds
        → Gives (words_of out.new) b ds (fold_of (new_of (CommonFactor d) x a)) result }
{
    let sum = unit(x);
    let right = put::put(Kind::Divisible, d, &sum, out, b);
    let c = answers::after(b, right);
    let left = fold::fold(part, Change::Scaled(d, x), out, c);
    let both = answers::joined(out, true, b, right, left);
    answers::bound(out, b, true, x, both)
}

// The step's new rule, of the body, folded.
fn of_body(part: Part, step: Step, x: usize, out: &mut [u8], b: State) -> Folded
    requires { In SomeFairMaking part step x (words_of out.old) b }
    ensures { (a : Rule) (ds : List Node) → In FairMaking part.entry step.entry x (words_of out.old) b a ds
        → Gives (words_of out.new) b ds (fold_of (new_of step.entry x a)) result }
{
    match step {
        Step::ForAll => by_some(part, x, out, b),
        Step::NormalForm => normalled(part, x, out, b),
        Step::CommonFactor(d) => scaled(part, x, d, out, b),
        Step::Disjunction(period, places) => disjunction::disjunction(
            part, x, period, places, out, b,
        ),
        Step::Truth(v) => Folded::Known(v),
    }
}

// The step's new rule, of the quantifier that stands there, folded.
pub fn made(part: Part, step: Step, out: &mut [u8], b: State) -> Folded
    requires { In SomeMaking part step (words_of out.old) b }
    ensures { (q : Quantifier) (x : ℕ) (a : Rule) (ds : List Node)
        → In Making part.entry step.entry (words_of out.old) b q x a ds
        → Gives (words_of out.new) b ds (fold_of (new_of step.entry x a)) result }
{
    let x = words::natural(part.bodies, 1);
    of_body(part.behind(1, 2), step, x, out, b)
}
