// "While a quantifier remains, take the one with the greatest node number": a round of steps for each.
ghost use Rattle.rules.specs.Rule.{Rule};
ghost use Rattle.rules.specs.Eliminate.{round as round_of, rounds as rounds_of};
ghost use Rattle.rules.specs.Calls.{words as words_of};
ghost use Rattle.elimination.specs.Stepping.{Locates, StepReady, SomeStepReady, SomeStepLocated, Stepped};
ghost use Rattle.elimination.specs.Stepping.{numbered as numbered_of};

use crate::locate::Quantified;
use crate::{locate, step};
use tables::refusal::Refusal;

// "Then:" the numbered steps. Each gives another table, in which the chosen quantifier is located anew.
fn numbered(table: &mut [u8], work: &mut [u8], room: usize, c: Quantified) -> Result<(), Refusal>
    requires { SomeStepLocated (words_of table.old) (words_of work.old) room c }
    ensures { (r : Rule) → StepReady (words_of table.old) (words_of work.old) room r
        → Locates r c → Stepped (numbered_of room r) result (words_of table.new) }
{
    step::normal_form(table, work, room, c)?;
    let Some(d) = locate::locate(table) else {
        return Ok(());
    };
    step::common_factor(table, work, room, d)?;
    let Some(e) = locate::locate(table) else {
        return Ok(());
    };
    step::disjunction(table, work, room, e)
}

// The chosen quantifier goes.
fn round(table: &mut [u8], work: &mut [u8], room: usize, c: Quantified) -> Result<(), Refusal>
    requires { SomeStepLocated (words_of table.old) (words_of work.old) room c }
    ensures { (r : Rule) → StepReady (words_of table.old) (words_of work.old) room r
        → Locates r c → Stepped (round_of room r) result (words_of table.new) }
{
    if c.some {
        return numbered(table, work, room, c);
    }
    step::for_all(table, work, room, c)?;
    let Some(d) = locate::locate(table) else {
        return Ok(());
    };
    numbered(table, work, room, d)
}

// So many rounds, while a quantifier remains.
pub fn rounds(table: &mut [u8], work: &mut [u8], room: usize, most: usize) -> Result<(), Refusal>
    requires { SomeStepReady (words_of table.old) (words_of work.old) room }
    ensures { (r : Rule) → StepReady (words_of table.old) (words_of work.old) room r
        → Stepped (rounds_of most room r) result (words_of table.new) }
{
    for _ in 0..most {
        let Some(c) = locate::locate(table) else {
            return Ok(());
        };
        round(table, work, room, c)?;
    }
    Ok(())
}
