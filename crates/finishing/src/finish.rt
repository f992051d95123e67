// The nodes are copied one by one: each gets its entry, and a right child, so far given by its distance, its number.
ghost use Rattle.std.specs.Prelude.{◌≡◌, [], ◌∷◌, ◌++◌, ◌+◌, ◌≤◌, length, take, drop};
ghost use Rattle.rules.specs.Rule.{Rule};
ghost use Rattle.rules.specs.Table.{Node, width as width_of};
ghost use Rattle.rules.specs.Calls.{words as words_of};
ghost use Rattle.tables.specs.Standing.{TableAt};
ghost use Rattle.finishing.specs.Placing.{Run};
ghost use Rattle.finishing.specs.Finishing.{Finishable, SomeFinishable, SomePlaceable, Placeable};

use builder::push::State;
use tables::kind::Kind;
use tables::words;

// The `width` words of `work` from place `from` on, at place `to` of `table`. Word by word: of one word to nine
// copy_from_slice is a call of memmove, which takes longer than the words do.
fn copy(work: &[u8], from: usize, width: usize, table: &mut [u8], to: usize)
    requires { (from + width ≤ length (words_of work.now)) × (to + width ≤ length (words_of table.old)) }
    ensures { take (to + width) (words_of table.new)
        ≡ take to (words_of table.old) ++ take width (drop from (words_of work.now)) }
{
    for j in 0..width {
        words::put(table, to + j, words::get(work, from + j));
    }
}

// The node whose words stand from place `from` of `work` on, as node i of `table` at place `to`: its entry and its
// body, where the number of a right child is `shift` more. How many words it has.
pub fn node(work: &[u8], from: usize, shift: usize, table: &mut [u8], i: usize, to: usize) -> usize
    requires { SomePlaceable (words_of work.now) from shift (words_of table.old) i to }
    ensures { (d : Node)
        → Placeable (words_of work.now) from shift (words_of table.old) i to d
        → Run (words_of table.old) (words_of table.new) i to (d ∷ []) × (result ≡ width_of d) }
{
    let kind = Kind::at(work, from);
    let width = kind.width();
    words::put(table, i + 1, to as i32);
    copy(work, from, width, table, to);
    if let Kind::And | Kind::Or = kind {
        let distance = words::natural(work, from + 1);
        words::put(table, to + 1, (distance + shift) as i32);
    }
    width
}

// The table of the rule that is built in `work`, at the start of `table`.
pub fn finish(work: &[u8], b: State, table: &mut [u8])
    requires { SomeFinishable (words_of work.now) b (words_of table.old) }
    ensures { (r : Rule) → Finishable (words_of work.now) b (words_of table.old) r
        → TableAt (words_of table.new) r }
{
    let n = b.nodes;
    words::put(table, 0, n as i32);
    let mut from = words::count(work) - b.used;
    let mut to = n + 1;
    for i in 0..n {
        let width = node(work, from, i, table, i, to);
        from += width;
        to += width;
    }
}
