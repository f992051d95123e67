// The leave-off test: whether a line of the form, a setting, matters to a rule.
ghost use Rattle.std.specs.Prelude.{◌≡◌, T, pos, length, Ok};
ghost use Rattle.rules.specs.Rule.{Rule};
ghost use Rattle.rules.specs.Result.{given};
ghost use Rattle.rules.specs.Table.{is_setting};
ghost use Rattle.rules.specs.LeaveOff.{leave_off};
ghost use Rattle.rules.specs.Calls.{words as words_of, rule_of, left_off};
ghost use Rattle.tables.specs.Checks.{Verdict};
ghost use Rattle.elimination.specs.Stepping.{Stepped, FirstReady};
ghost use Rattle.leaveoff.specs.Outcome.{answer_of, outcome_of, TestsLine, test_of};

use crate::answer::Answer;
use crate::making;
use elimination::rebuild;
use questions::question;
use tables::refusal::Refusal;
use tables::{check, words};

// "its question .. is the first table given to elimination and must fit the room before folding (6)", for a table of n
// nodes and a setting. Both buffers have exactly the room.
fn answered(
    t: &[u8],
    n: usize,
    v: usize,
    out: &mut [u8],
    work: &mut [u8],
    room: usize,
) -> Result<(), Refusal>
    requires { Verdict (rule_of t.now) (Ok n) × T (is_setting (pos v))
        × FirstReady (words_of out.old) (words_of work.old) room }
    ensures { (r : Rule) → rule_of t.now ≡ given r
        → Stepped (leave_off room (pos v) r) result (words_of out.new) }
{
    if room < question::size(t) {
        return Err(Refusal::Room);
    }
    question::question(t, n, v, out);
    rebuild::first_here(out, work, room)?;
    making::all_rounds(out, work, room)
}

// Whether v is a setting, 1 to 6.
#[tactic(auto, unfolding(rules::specs::Table::is_setting))]
fn is_setting(v: i32) -> bool
    ensures { result ≡ is_setting v }
{
    (1..=6).contains(&v)
}

// Where it is not refused, the result's table is at the start of `out`. Both buffers have exactly the room.
fn tested(t: &[u8], v: i32, out: &mut [u8], work: &mut [u8], room: usize) -> Result<(), Refusal>
    requires { FirstReady (words_of out.old) (words_of work.old) room }
    ensures { Stepped (test_of t.now v room) result (words_of out.new) }
{
    let n = check::check(t)?;
    if !is_setting(v) {
        return Err(Refusal::Setting);
    }
    answered(t, n, v as usize, out, work, room)
}

// The leave-off test of setting v, on any bytes, any v and any lent buffers.
pub fn leave_off(t: &[u8], v: i32, out: &mut [u8], work: &mut [u8]) -> Answer
    ensures work_after { outcome_of result out.new work.new
        ≡ left_off t.now v (length out.old) (length work.old) }
    ensures tests_line { TestsLine t.now v (answer_of result) }
{
    let room = words::room(out.len(), work.len());
    let end = room * 4;
    let made = tested(t, v, &mut out[..end], &mut work[..end], room);
    making::leave(made, out, work)
}
