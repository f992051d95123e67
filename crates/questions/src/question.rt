// The question: "for some of each other setting, in rising order from the outside, the and of (for some v, F) and (for
// some v, not F)".
ghost use Rattle.std.specs.Prelude.{◌≡◌, Ok, map, ℕ, ◌+◌, ◌<◌, ◌≤◌, T, pos, length, get_or};
ghost use Rattle.rules.specs.Rule.{Rule, Not, Some, for_some};
ghost use Rattle.rules.specs.Result.{given};
ghost use Rattle.rules.specs.Table.{bind_node, most_words, count, nodes, size as size_of, is_setting, all_settings};
ghost use Rattle.rules.specs.LeaveOff.{others, question as question_of};
ghost use Rattle.rules.specs.Calls.{words as words_of, rule_of};
ghost use Rattle.rules.proofs.Sizes.{weight};
ghost use Rattle.tables.specs.Checks.{Verdict};
ghost use Rattle.tables.specs.Standing.{TableAt};
ghost use Rattle.finishing.specs.Placing.{Free, Run};

use crate::place;
use tables::kind::Kind;
use tables::words;

// How many words the question on the rule of the table t has: t's entries and bodies twice, nine entries and 17 words
// of its own nodes, and the count.
pub fn size(t: &[u8]) -> usize
    ensures { (r : Rule) (v : ℕ) → rule_of t.now ≡ given r → T (is_setting (pos v))
        → result ≡ size_of (question_of v r) }
{
    words::count(t) * 2 + 25
}

// Other setting i: the settings but v in rising order, the lowest of them as number 0.
#[tactic(auto, using(crate::proofs::OtherLaws::by_setting))]
fn other(i: usize, v: usize) -> usize
    requires { (i < 5) × T (is_setting (pos v)) }
    ensures { (result ≡ get_or (others v all_settings) i 0) × (result ≤ 6) }
{
    if i + 1 < v { i + 1 } else { i + 2 }
}

// "for some of each other setting": nodes 0 to 4.
fn outer(table: &mut [u8], to: usize, v: usize)
    requires { Free (words_of table.old) 0 to 5 10 × T (is_setting (pos v)) }
    ensures { Run (words_of table.old) (words_of table.new) 0 to
        (map (bind_node for_some) (others v all_settings)) }
{
    for i in 0..5 {
        place::node(table, i, to + i * 2, Kind::ForSome, &[other(i, v)]);
    }
}

// "for some v, F", from node i on. The place behind it.
fn holds(t: &[u8], n: usize, v: usize, table: &mut [u8], i: usize, to: usize) -> usize
    requires { Verdict (rule_of t.now) (Ok n) × T (is_setting (pos v))
        × ((a : Rule) → rule_of t.now ≡ given a
        → Free (words_of table.old) i to (count (Some v a)) (weight (Some v a))) }
    ensures { (a : Rule) → rule_of t.now ≡ given a
        → Run (words_of table.old) (words_of table.new) i to (nodes (Some v a))
        × (result ≡ to + weight (Some v a)) }
{
    place::node(table, i, to, Kind::ForSome, &[v]);
    place::rule(t, n, table, i + 1, to + 2)
}

// "for some v, not F", from node i on.
fn fails(t: &[u8], n: usize, v: usize, table: &mut [u8], i: usize, to: usize)
    requires { Verdict (rule_of t.now) (Ok n) × T (is_setting (pos v))
        × ((a : Rule) → rule_of t.now ≡ given a
        → Free (words_of table.old) i to (count (Some v (Not a))) (weight (Some v (Not a)))) }
    ensures { (a : Rule) → rule_of t.now ≡ given a
        → Run (words_of table.old) (words_of table.new) i to (nodes (Some v (Not a))) }
{
    place::node(table, i, to, Kind::ForSome, &[v]);
    place::node(table, i + 1, to + 2, Kind::Not, &[]);
    place::rule(t, n, table, i + 2, to + 3);
}

// The question on the rule of the table t, of n nodes, as a table at the start of `out`: nodes 0 to 4 are the outer
// quantifiers, node 5 is the and, its left side starts at node 6 and its right side at node n + 7.
pub fn question(t: &[u8], n: usize, v: usize, out: &mut [u8])
    requires { Verdict (rule_of t.now) (Ok n) × T (is_setting (pos v))
        × ((r : Rule) → rule_of t.now ≡ given r → size_of (question_of v r) ≤ length (words_of out.old))
        × (length (words_of out.old) ≤ most_words) }
    ensures { (r : Rule) → rule_of t.now ≡ given r
        → TableAt (words_of out.new) (question_of v r) }
{
    let nodes = n * 2 + 9;
    words::put(out, 0, nodes as i32);
    outer(out, nodes + 1, v);
    place::node(out, 5, nodes + 11, Kind::And, &[n + 7]);
    let behind = holds(t, n, v, out, 6, nodes + 13);
    fails(t, n, v, out, n + 7, behind);
}
