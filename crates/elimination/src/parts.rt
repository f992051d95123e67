// The parts of a table that the steps walk: its rule, and the body of its chosen quantifier.
ghost use Rattle.std.specs.Prelude.{ℕ};
ghost use Rattle.rules.specs.Rule.{Quantifier, Rule};
ghost use Rattle.rules.specs.Calls.{words as words_of};
ghost use Rattle.elimination.specs.Stepping.{HasTable, SomeTable, WholeIn, ChosenIn, SomeChosen, BodyIn};

use tables::part::Part;
use tables::words;

// The rule: its bodies stand behind word 0 and the entries.
pub fn rule(table: &[u8]) -> Part
    requires { SomeTable (words_of table.now) }
    ensures { (r : Rule) → HasTable (words_of table.now) r → WholeIn (words_of table.now) r result }
{
    Part::at(table, 0, words::natural(table, 0) + 1)
}

// The body of the quantifier that is this node at this place: the next node, two words on.
pub fn body(table: &[u8], node: usize, place: usize) -> Part
    requires { SomeChosen (words_of table.now) node place }
    ensures { (r : Rule) (q : Quantifier) (x : ℕ) (a : Rule)
        → ChosenIn (words_of table.now) r q x a node place → BodyIn (words_of table.now) place a result }
{
    Part::at(table, node + 1, place + 2)
}
