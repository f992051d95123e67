// What the program prints, put at the start of lent bytes.
ghost use Rattle.std.specs.Prelude.{◌≡◌, ◌+◌, ◌≤◌, length};
ghost use Rattle.rules.specs.Rule.{Rule};
ghost use Rattle.rules.specs.Result.{Result};
ghost use Rattle.rules.specs.Calls.{words as words_of};
ghost use Rattle.eliminate.specs.Counts.{IsPrefixLen};
ghost use Rattle.leaveoff.specs.Outcome.{answer_of};
ghost use Rattle.text.specs.Placed.{Placed, Puts};
ghost use Rattle.eliminate.specs.Printed.{printed, printed_of, LeftBy, SomeLeft};

use leaveoff::answer::Answer;
use leaveoff::eliminate;
use tables::words;
use text::lent::Text;

// All lines of what elimination left.
fn all_lines(text: &mut Text<'_>, a: Answer, out: &[u8])
    requires left { SomeLeft (answer_of a) (words_of out.now) }
    requires room { text.old.at + 196640 ≤ length text.old.bytes.now }
    ensures lines { (x : Result Rule) → LeftBy x (answer_of a) (words_of out.now)
        → Puts text.old (printed x) text.new }
    ensures short { text.new.at ≤ text.old.at + 196640 }
    ensures same_reference { text.new.bytes.ghost_name ≡ text.old.bytes.ghost_name }
{
    text.four(a.number, [a.verdict, a.words, a.settings]);
    if a.number == 0 {
        let n = words::natural(out, 0);
        let from = (n + 1) * 4;
        let end = a.words as usize * 4;
        text.lines(&out[from..end], n);
    }
}

// What the program prints when it has read these bytes.
pub fn report(table: &[u8], text: &mut [u8]) -> usize
    requires { 196640 ≤ length text.old }
    ensures placed { Placed text.old 0 (printed_of table.now) text.new result }
    ensures prefix_len { IsPrefixLen result text.new }
{
    let mut out = [0u8; 65536];
    let mut work = [0u8; 65536];
    let answer = eliminate::eliminate(table, &mut out, &mut work);
    let mut lines = Text { bytes: text, at: 0 };
    all_lines(&mut lines, answer, &out);
    lines.at
}
