// A step table from the last: built at the end of the work buffer, and put back in the last one's place.
ghost use Rattle.std.specs.Prelude.{◌≡◌, [], ℕ};
ghost use Rattle.rules.specs.Rule.{Quantifier, Rule};
ghost use Rattle.rules.specs.Result.{given};
ghost use Rattle.rules.specs.Fold.{fold as fold_of};
ghost use Rattle.rules.specs.Chosen.{replace};
ghost use Rattle.rules.specs.Eliminate.{step_table};
ghost use Rattle.rules.specs.Calls.{words as words_of, rule_of};
ghost use Rattle.folding.specs.Answers.{Gives};
ghost use Rattle.steps.specs.Making.{new_of};
ghost use Rattle.elimination.specs.Stepping.{Stepped, sized, Rebuilding, SomeRebuilding};
ghost use Rattle.elimination.specs.Stepping.{none_built, Folding, SomeFolding, Closing, SomeClosing};
ghost use Rattle.elimination.specs.Stepping.{FirstReady, SomeChecked, InPlace, SomeInPlace};

use crate::parts;
use builder::push;
use finishing::finish;
use folding::answers;
use folding::answers::Folded;
use literals::change::Change;
use steps::around;
use steps::made::Step;
use tables::refusal::Refusal;
use walks::fold;

// The table with the step's new rule in the place of the chosen quantifier, node `chosen`, where it has room. Both
// buffers and the room go through the steps each by itself: of a struct with two `&mut` each function would promise
// besides, of both, that it is still the caller's reference.
pub fn rebuilt(
    table: &mut [u8],
    work: &mut [u8],
    room: usize,
    chosen: usize,
    step: Step,
) -> Result<(), Refusal>
    requires { SomeRebuilding (words_of table.old) (words_of work.old) room chosen step }
    ensures { (r : Rule) (q : Quantifier) (x : ℕ) (a : Rule)
        → Rebuilding (words_of table.old) (words_of work.old) room chosen step.entry r q x a
        → Stepped (sized room (fold_of (replace (new_of step.entry x a) r))) result (words_of table.new) }
{
    let folded = around::around(parts::rule(table), chosen, step, work, push::start());
    closed(table, work, room, folded)
}

// The rule of the table t, folded, is built where nothing was.
#[inline(always)]
fn folded(t: &[u8], work: &mut [u8]) -> Folded
    requires { SomeFolding (words_of t.now) (words_of work.old) }
    ensures { (r : Rule) → Folding (words_of t.now) (words_of work.old) r
        → Gives (words_of work.new) none_built [] (fold_of r) result }
{
    fold::fold(parts::rule(t), Change::Same, work, push::start())
}

// "The input, folded, is the first step table".
pub fn first(input: &[u8], table: &mut [u8], work: &mut [u8], room: usize) -> Result<(), Refusal>
    requires { SomeChecked input.now × FirstReady (words_of table.old) (words_of work.old) room }
    ensures { (r : Rule) → rule_of input.now ≡ given r
        → Stepped (step_table room r) result (words_of table.new) }
{
    let folded = folded(input, work);
    closed(table, work, room, folded)
}

// The same, of an input that stands in the first step table's own place: a slice cannot be lent to be read and to be
// written at once, so that this is not `first` of the table itself.
pub fn first_here(table: &mut [u8], work: &mut [u8], room: usize) -> Result<(), Refusal>
    requires { SomeInPlace (words_of table.old) (words_of work.old) room }
    ensures { (r : Rule) → InPlace (words_of table.old) (words_of work.old) room r
        → Stepped (step_table room r) result (words_of table.new) }
{
    let folded = folded(table, work);
    closed(table, work, room, folded)
}

// What is built becomes the table, if it has room.
fn closed(table: &mut [u8], work: &mut [u8], room: usize, folded: Folded) -> Result<(), Refusal>
    requires { SomeClosing (words_of table.old) (words_of work.old) room folded }
    ensures { (f : Rule)
        → Closing (words_of table.old) (words_of work.old) room folded f
        → Stepped (sized room f) result (words_of table.new) }
{
    let b = answers::stood(work, push::start(), folded);
    if !push::fits(b, room) {
        return Err(Refusal::Room);
    }
    finish::finish(work, b, table);
    Ok(())
}
