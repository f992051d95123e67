// An and or an or of two answers.
ghost use Rattle.std.specs.Prelude.{List};
ghost use Rattle.rules.specs.Rule.{Rule};
ghost use Rattle.rules.specs.Table.{Node};
ghost use Rattle.rules.specs.Fold.{fold_join};
ghost use Rattle.rules.specs.Calls.{words};
ghost use Rattle.builder.specs.Built.{junction};
ghost use Rattle.folding.specs.Answers.{Gives};
ghost use Rattle.walks.specs.Pairs.{Pair, SomePair};

use builder::push::State;
use folding::answers;
use folding::answers::Folded;

// The left side was put even where the right one settles the join; then what was there before it is taken up again.
pub fn both(out: &mut [u8], and: bool, b: State, right: Folded, left: Folded) -> Folded
    requires { SomePair (words out.old) b right left }
    ensures { (x y : Rule) (ds : List Node) → Pair (words out.old) b ds x y right left
        → Gives (words out.new) b ds (fold_join (junction and) y x) result }
{
    if answers::settles(and, right) {
        return right;
    }
    answers::joined(out, and, b, right, left)
}
