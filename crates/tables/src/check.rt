// Checking a table: exactly the verdict of the paper on any bytes.
ghost use Rattle.std.specs.Prelude.{◌≡◌, ◌+◌, ◌<◌, ◌≤◌, length, get_or};
ghost use Rattle.rules.specs.Calls.{words, rule_of};
ghost use Rattle.tables.specs.Reads.{arities};
ghost use Rattle.tables.specs.Checks.{Listed, TreeAt, Judged, rest, Verdict};

use crate::extent::Extent;
use crate::kind::Kind;
use crate::refusal::Refusal;
use crate::{reading, words};

// "per node its entry (2) and its body (3); then the table's end (2)"
fn nodes(t: &[u8], n: usize) -> Result<usize, Refusal>
    requires { (n + 1 ≤ length (words t.now)) × (length (words t.now) ≤ 16384) }
    ensures { Judged length (rest (words t.now) n 0 (n + 1)) result }
{
    let mut place = n + 1;
    for i in 0..n {
        if words::natural(t, i + 1) != place {
            return Err(Refusal::Contents);
        }
        let from = place * 4;
        let (_, next) = reading::read_node(&t[from..], place)?;
        place = next;
    }
    if place == words::count(t) {
        Ok(n)
    } else {
        Err(Refusal::Contents)
    }
}

// How many children a node of the kind with this number has, by branches, as `reading::width` has it and for its
// reason.
pub fn children(kind: usize) -> usize
    ensures { result ≡ get_or arities kind 0 }
{
    if kind / 2 == Kind::And as usize / 2 {
        return 2;
    }
    if kind == Kind::Not as usize {
        return 1;
    }
    if kind / 2 == Kind::ForSome as usize / 2 {
        return 1;
    }
    0
}

// The tree that starts these bodies, which are those of `left` nodes from number `node` on; or there is none. It ends
// where its last child does: behind m nodes and w words exactly one more tree is due. Only a left child is walked by a
// call. The loop counts no index: a turn may pass a whole left child. By branches: a match on the number of children
// makes the next place wait for it, and a chain of nots takes three times as long.
fn walk(bodies: &[u8], node: usize, left: usize) -> Option<Extent>
    requires { (Listed (words bodies.now) node left) × (node + left ≤ 16384)
        × (length (words bodies.now) ≤ 16384) }
    ensures { TreeAt (words bodies.now) node left result }
{
    let mut m: usize = 0;
    let mut w: usize = 0;
    while m < left {
        let kind = words::natural(bodies, w);
        let children = children(kind);
        let behind = w + reading::width(kind);
        if children == 0 {
            return Some(Extent {
                nodes: m + 1,
                words: behind,
            });
        }
        if children == 1 {
            m += 1;
            w = behind;
            continue;
        }
        let right = words::natural(bodies, w + 1);
        let first = walk(&bodies[behind * 4..], node + m + 1, left - m - 1)?;
        if right != node + m + 1 + first.nodes {
            return None;
        }
        m += 1 + first.nodes;
        w = behind + first.words;
    }
    None
}

// The verdict of the paper on these bytes: 1; then the nodes (2, 3); then the tree (4).
pub fn check(t: &[u8]) -> Result<usize, Refusal>
    ensures { Verdict (rule_of t.now) result }
{
    if t.len() % 4 != 0 {
        return Err(Refusal::Length);
    }
    let size = words::count(t);
    if size == 0 || words::MOST_WORDS < size {
        return Err(Refusal::Length);
    }
    let n = words::natural(t, 0);
    if n < 1 || size <= n {
        return Err(Refusal::Length);
    }
    nodes(t, n)?;
    let from = (n + 1) * 4;
    match walk(&t[from..], 0, n) {
        Some(tree) if tree.nodes == n => Ok(n),
        _ => Err(Refusal::Tree),
    }
}
