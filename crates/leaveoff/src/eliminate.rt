// Elimination: an equivalent table without quantifiers, in lent memory.
ghost use Rattle.std.specs.Prelude.{◌≡◌, length};
ghost use Rattle.rules.specs.Calls.{words as words_of, eliminated};
ghost use Rattle.elimination.specs.Stepping.{Stepped, FirstReady};
ghost use Rattle.leaveoff.specs.Outcome.{answer_of, outcome_of, Eliminates, steps_of};

use crate::answer::Answer;
use crate::making;
use elimination::rebuild;
use tables::refusal::Refusal;
use tables::{check, words};

// Where it is not refused, the result's table is at the start of `out`. Both buffers have exactly the room.
fn stepped(t: &[u8], out: &mut [u8], work: &mut [u8], room: usize) -> Result<(), Refusal>
    requires { FirstReady (words_of out.old) (words_of work.old) room }
    ensures { Stepped (steps_of t.now room) result (words_of out.new) }
{
    check::check(t)?;
    rebuild::first(t, out, work, room)?;
    making::all_rounds(out, work, room)
}

// Elimination, on any bytes and any lent buffers.
pub fn eliminate(t: &[u8], out: &mut [u8], work: &mut [u8]) -> Answer
    ensures work_after { outcome_of result out.new work.new
        ≡ eliminated t.now (length out.old) (length work.old) }
    ensures eliminates { Eliminates t.now out.new (answer_of result) }
{
    let room = words::room(out.len(), work.len());
    let end = room * 4;
    let made = stepped(t, &mut out[..end], &mut work[..end], room);
    making::leave(made, out, work)
}
