// The walk over a quantifier-free rule: whether it holds at six values.
ghost use Rattle.std.specs.Prelude.{◌≡◌, T};
ghost use Rattle.rules.specs.Sum.{all_within};
ghost use Rattle.rules.specs.Rule.{Rule};
ghost use Rattle.rules.specs.Match.{most_value, choice, holds as holds_at};
ghost use Rattle.rules.specs.Calls.{words as words_of};
ghost use Rattle.matcher.specs.Matching.{Matchable, SomeMatchable};

use literals::literal;
use tables::kind::Kind;
use tables::part::Part;

// Whether the rule that stands in the table t, as this node at this place, holds at the values. A false left side
// settles an and, a true one an or; else the right side decides. So only a left side is walked by a call, and is handed
// on by its two numbers, since a part goes through memory at a call; the loop, which counts no index, goes on to what
// decides, and `odd` says whether an odd number of nots lies between.
pub fn verdict(t: &[u8], node: usize, place: usize, values: &[i32; 6]) -> bool
    requires some_matchable { SomeMatchable (words_of t.now) node place }
    requires in_range { T (all_within most_value values.now) }
    ensures { (a : Rule) → Matchable (words_of t.now) node place a → result ≡ holds_at a (choice values.now) }
{
    let mut rule = Part::at(t, node, place);
    let mut odd = false;
    loop {
        let kind = rule.kind();
        match kind {
            Kind::False | Kind::True => return kind.is_true() != odd,
            Kind::Not => {
                odd = !odd;
                rule = rule.behind(1, 1);
                continue;
            }
            Kind::And | Kind::Or => {}
            _ => return literal::holds(rule.bodies, values) != odd,
        }
        let side = rule.left();
        let left = verdict(t, side.node, side.place, values);
        if left != kind.is_and() {
            return left != odd;
        }
        rule = rule.right();
    }
}
