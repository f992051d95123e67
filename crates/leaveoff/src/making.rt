// What the calls that make a table share: the rounds after the first step table, and what is left in lent memory.
ghost use Rattle.std.specs.Prelude.{◌≡◌, length};
ghost use Rattle.rules.specs.Rule.{Rule};
ghost use Rattle.rules.specs.Result.{Result};
ghost use Rattle.rules.specs.Chosen.{quantifiers};
ghost use Rattle.rules.specs.Eliminate.{rounds as rounds_of};
ghost use Rattle.rules.specs.Calls.{words as words_of, outcome};
ghost use Rattle.elimination.specs.Stepping.{Stepped, StepReady, SomeStepReady};
ghost use Rattle.leaveoff.specs.Outcome.{outcome_of};
ghost use Rattle.leaveoff.specs.Result.{Ended, SomeEnd};

use crate::answer::Answer;
use crate::{answer, result};
use elimination::rounds;
use tables::refusal::Refusal;
use tables::words;

// "While a quantifier remains": each is a node, so that there are rounds enough for all.
pub fn all_rounds(out: &mut [u8], work: &mut [u8], room: usize) -> Result<(), Refusal>
    requires { SomeStepReady (words_of out.old) (words_of work.old) room }
    ensures { (f : Rule) → StepReady (words_of out.old) (words_of work.old) room f
        → Stepped (rounds_of (quantifiers f) room f) result (words_of out.new) }
{
    let most = words::natural(out, 0);
    rounds::rounds(out, work, room, most)
}

// "An answered call leaves the table at the start of the output buffer, zeros after it, and zeros in the whole work
// buffer; a refused one leaves zeros in both."
pub fn leave(end: Result<(), Refusal>, out: &mut [u8], work: &mut [u8]) -> Answer
    requires { SomeEnd end (words_of out.old) }
    ensures { (x : Result Rule) → Ended x end (words_of out.old)
        → outcome_of result out.new work.new
        ≡ outcome (length out.old) (length work.old) x }
{
    words::zero(work);
    match end {
        Ok(()) => result::result(out),
        Err(refusal) => {
            words::zero(out);
            answer::refused(refusal.number())
        }
    }
}
