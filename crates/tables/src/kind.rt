// The kind of a node, by the paper's numbers.
ghost use Rattle.std.specs.Prelude.{true, false, ◌≡◌, ◌≤◌, pos, get_or};
ghost use Rattle.rules.specs.Calls.{words as words_of};
ghost use Rattle.tables.specs.Reads.{widths};
ghost use Rattle.tables.specs.Last.{binds};
ghost use Rattle.tables.specs.Kinds.{number_of, Kinded, KindFrom};
ghost use Rattle.tables.specs.declared.kind.Kind.TheVariants.{False, True, And, Or};

use crate::refusal::Refusal;
use crate::words;

// False, true; and, or, not; 0 < T; k divides T, k does not; for some, for all; T = 0.
#[derive(Clone, Copy, PartialEq, Eq)]
pub enum Kind {
    False = 0,
    True = 1,
    And = 2,
    Or = 3,
    Not = 4,
    Positive = 5,
    Divisible = 6,
    Indivisible = 7,
    ForSome = 8,
    ForAll = 9,
    Zero = 10,
}

impl Kind {
    // That of the node whose body starts at word i.
    pub fn at(bodies: &[u8], i: usize) -> Kind
        requires { Kinded (words_of bodies.now) i }
        ensures { get_or (words_of bodies.now) i (pos 0) ≡ pos (number_of result) }
    {
        Kind::try_from(words::natural(bodies, i)).unwrap()
    }

    // How many words a body of this kind has.
    #[tactic(auto, unfolding(crate::specs::Kinds::number_of))]
    pub fn width(self) -> usize
        ensures { (result ≡ get_or widths (number_of self) 0) × (result ≤ 9) }
    {
        match self {
            Kind::False | Kind::True | Kind::Not => 1,
            Kind::And | Kind::Or | Kind::ForSome | Kind::ForAll => 2,
            Kind::Positive | Kind::Zero => 8,
            Kind::Divisible | Kind::Indivisible => 9,
        }
    }

    // Whether a constant of this kind is true.
    pub fn is_true(self) -> bool
        ensures yes { self ≡ True → result ≡ true }
        ensures no { self ≡ False → result ≡ false }
    {
        matches!(self, Kind::True)
    }

    // Whether a join of this kind is an and.
    pub fn is_and(self) -> bool
        ensures yes { self ≡ And → result ≡ true }
        ensures no { self ≡ Or → result ≡ false }
    {
        matches!(self, Kind::And)
    }

    // Whether it is a quantifier's.
    #[tactic(auto, unfolding(crate::specs::Kinds::number_of))]
    pub fn binds(self) -> bool
        ensures { result ≡ binds (number_of self) }
    {
        matches!(self, Kind::ForSome | Kind::ForAll)
    }
}

// "an unknown kind" is refused by 3.
impl TryFrom<usize> for Kind {
    type Error = Refusal;

    ghost try_from_gives = { KindFrom };

    #[tactic(auto, unfolding(crate::specs::Kinds::KindFrom, crate::specs::Kinds::number_of))]
    fn try_from(number: usize) -> Result<Kind, Refusal> {
        match number {
            0 => Ok(Kind::False),
            1 => Ok(Kind::True),
            2 => Ok(Kind::And),
            3 => Ok(Kind::Or),
            4 => Ok(Kind::Not),
            5 => Ok(Kind::Positive),
            6 => Ok(Kind::Divisible),
            7 => Ok(Kind::Indivisible),
            8 => Ok(Kind::ForSome),
            9 => Ok(Kind::ForAll),
            10 => Ok(Kind::Zero),
            _ => Err(Refusal::Node),
        }
    }
}
