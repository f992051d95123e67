// Nodes of a table that is written from the front: each gets its entry and its body.
ghost use Rattle.std.specs.Prelude.{◌≡◌, [], ◌∷◌, ◌+◌, ◌≤◌, map, length, slice_index, EachIndex, Ok, pos};
ghost use Rattle.rules.specs.Sum.{limit};
ghost use Rattle.rules.specs.Rule.{Rule};
ghost use Rattle.rules.specs.Result.{given};
ghost use Rattle.rules.specs.Table.{Node, body, count, nodes};
ghost use Rattle.rules.specs.Calls.{words as words_of, rule_of};
ghost use Rattle.rules.proofs.Sizes.{weight};
ghost use Rattle.tables.specs.Checks.{Verdict};
ghost use Rattle.tables.specs.Kinds.{number_of};
ghost use Rattle.finishing.specs.Placing.{Free, Run};

use finishing::finish;
use tables::kind::Kind;
use tables::words;

// Node i, whose body is a kind and these fields, at place `to`.
pub fn node(table: &mut [u8], i: usize, to: usize, kind: Kind, fields: &[usize])
    requires { Free (words_of table.old) i to 1 (1 + length fields.now)
        × EachIndex fields.now (λ k. slice_index fields.now k ≤ limit) }
    ensures { (d : Node) → body i d ≡ pos (number_of kind) ∷ map pos fields.now
        → Run (words_of table.old) (words_of table.new) i to (d ∷ []) }
{
    words::put(table, i + 1, to as i32);
    words::put(table, to, kind as i32);
    for (j, field) in fields.iter().enumerate() {
        words::put(table, to + 1 + j, *field as i32);
    }
}

// The n nodes of the table t, as nodes from i on, the first of them at place `to`. The place behind the last.
pub fn rule(t: &[u8], n: usize, table: &mut [u8], i: usize, to: usize) -> usize
    requires { Verdict (rule_of t.now) (Ok n)
        × ((a : Rule) → rule_of t.now ≡ given a → Free (words_of table.old) i to (count a) (weight a)) }
    ensures { (a : Rule) → rule_of t.now ≡ given a
        → Run (words_of table.old) (words_of table.new) i to (nodes a) × (result ≡ to + weight a) }
{
    let mut from = n + 1;
    let mut place = to;
    for k in 0..n {
        let width = finish::node(t, from, i, table, i + k, place);
        from += width;
        place += width;
    }
    place
}
