// The steps on the chosen quantifier, which was located: for-all, normal form, common factor, disjunction. Each
// refuses, or leaves its table in the last one's place.
ghost use Rattle.std.specs.Prelude.{◌≡◌, true, false, ◌&&◌, ℕ, eqb};
ghost use Rattle.rules.specs.Rule.{Rule};
ghost use Rattle.rules.specs.Literals.{some_literal};
ghost use Rattle.rules.specs.Steps.{normal as normal_of, disjuncts};
ghost use Rattle.rules.specs.Eliminate.{over_limit, for_all_step, normal_step, common_step, disjunction_step};
ghost use Rattle.rules.specs.Calls.{words as words_of};
ghost use Rattle.steps.specs.Surveying.{Surveyed};
ghost use Rattle.elimination.specs.Stepping.{Locates, StepReady, SomeStepLocated, Stepped};
ghost use Rattle.elimination.specs.Stepping.{Planned};

use crate::locate::Quantified;
use crate::{parts, rebuild};
use bodies::{bounds, multiples};
use builder::push;
use literals::change::Change;
use steps::made::Step;
use steps::{numbers, survey};
use tables::refusal::Refusal;
use walks::normal;

// "A for-all is first replaced by not, for some, not: a step table of its own."
pub fn for_all(table: &mut [u8], work: &mut [u8], room: usize, c: Quantified) -> Result<(), Refusal>
    requires { SomeStepLocated (words_of table.old) (words_of work.old) room c × (c.some ≡ false) }
    ensures { (r : Rule) → StepReady (words_of table.old) (words_of work.old) room r
        → Locates r c → Stepped (for_all_step room r) result (words_of table.new) }
{
    rebuild::rebuilt(table, work, room, c.node, Step::ForAll)
}

// Whether a number passes the limit in the normal form of the body. Where no c is at the limit, none does; else it is
// built, only to see its numbers.
fn normal_over(table: &[u8], work: &mut [u8], c: Quantified) -> bool
    requires { (room : ℕ) × SomeStepLocated (words_of table.now) (words_of work.old) room c }
    ensures { (room : ℕ) (r : Rule)
        → StepReady (words_of table.now) (words_of work.old) room r → (at : Locates r c)
        → result ≡ some_literal over_limit (normal_of true c.setting at.body) }
{
    let body = parts::body(table, c.node, c.place);
    if !numbers::some_at_limit(body.bodies, c.end) {
        return false;
    }
    normal::plain(body, c.setting, work, push::start()).is_none()
}

// 1. Normal form.
pub fn normal_form(
    table: &mut [u8],
    work: &mut [u8],
    room: usize,
    c: Quantified,
) -> Result<(), Refusal>
    requires { SomeStepLocated (words_of table.old) (words_of work.old) room c }
    ensures { (r : Rule) → StepReady (words_of table.old) (words_of work.old) room r
        → Locates r c → Stepped (normal_step room r) result (words_of table.new) }
{
    if normal_over(table, work, c) {
        return Err(Refusal::Number);
    }
    rebuild::rebuilt(table, work, room, c.node, Step::NormalForm)
}

// Whether D is 1, under a for some.
fn taken_once(d: u32, some: bool) -> bool
    ensures { result ≡ (some && eqb d 1) }
{
    some && d == 1
}

// 2. Common factor. "D over 4,096 is refused (7) after step 1". Where D is 1 the table stays: each literal is taken
// once, and 1 divides x is true.
pub fn common_factor(
    table: &mut [u8],
    work: &mut [u8],
    room: usize,
    c: Quantified,
) -> Result<(), Refusal>
    requires { SomeStepLocated (words_of table.old) (words_of work.old) room c }
    ensures { (r : Rule) → StepReady (words_of table.old) (words_of work.old) room r
        → Locates r c → Stepped (common_step room r) result (words_of table.new) }
{
    let body = parts::body(table, c.node, c.place);
    let m = multiples::common_factor(body.bodies, c.end, c.setting).ok_or(Refusal::Multiple)?;
    if taken_once(m, c.some) {
        return Ok(());
    }
    let d = m as usize;
    if numbers::over(body.bodies, c.end, Change::Scaled(d, c.setting)) {
        return Err(Refusal::Number);
    }
    rebuild::rebuilt(table, work, room, c.node, Step::CommonFactor(d))
}

// What step 3 makes. A disjunct that stays open has an entry and a word at least, and each or between two has an entry
// and two words: n that stay open need 5·n − 3 words or more.
fn planned<'a>(seen: Option<usize>, room: usize, whole: Step<'a>) -> Result<Step<'a>, Refusal>
    ensures { (P x : ℕ) (a : Rule) → Surveyed (disjuncts P x a) seen → Planned room P whole.entry x a result }
{
    match seen {
        None => Ok(Step::Truth(true)),
        Some(0) => Ok(Step::Truth(false)),
        Some(many) if room / 5 + 1 < many => Err(Refusal::Room),
        Some(_) => Ok(whole),
    }
}

// 3. Disjunction. "P over 4,096 (7) after step 2." A table has at most 1,365 bounds.
pub fn disjunction(
    table: &mut [u8],
    work: &mut [u8],
    room: usize,
    c: Quantified,
) -> Result<(), Refusal>
    requires { SomeStepLocated (words_of table.old) (words_of work.old) room c }
    ensures { (r : Rule) → StepReady (words_of table.old) (words_of work.old) room r
        → Locates r c → Stepped (disjunction_step room r) result (words_of table.new) }
{
    let body = parts::body(table, c.node, c.place);
    let m = multiples::period(body.bodies, c.end).ok_or(Refusal::Multiple)?;
    let period = m as usize;
    let mut places = [0; 1365];
    let k = bounds::collect(body.bodies, c.end, c.setting, &mut places);
    let places = &places[..k];
    if numbers::disjuncts_over(body.bodies, c.end, c.setting, period, places) {
        return Err(Refusal::Number);
    }
    let seen = survey::of_disjuncts(body, c.setting, period, places);
    let step = planned(seen, room, Step::Disjunction(period, places))?;
    rebuild::rebuilt(table, work, room, c.node, step)
}
