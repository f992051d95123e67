// What is judged of a rule at 64 values of x at once, and of an and, an or and a not from their parts: one operation on
// the masks does all 64.
ghost use Rattle.std.specs.Prelude.{◌≡◌, Bool, true, false, ℕ, ◌<◌};
ghost use Rattle.rules.specs.Rule.{Rule, Join};
ghost use Rattle.judging.specs.Judging.{bit, Says};
ghost use Rattle.judging.specs.Masks.{Mask, Known, joint};

use crate::masks;

// Bit k of `yes` says that a rule folds to true at the k-th value, bit k of `no` that it folds to false. Where neither
// has the bit, the rule stays open.
#[derive(Clone, Copy)]
pub struct Judged {
    pub yes: u64,
    pub no: u64,
}

// True where m has a bit, false elsewhere.
pub fn settled(m: u64) -> Judged
    ensures { (t : ℕ → Bool) → Mask m t → Known result.yes result.no t }
{
    Judged {
        yes: m,
        no: masks::opposite(m),
    }
}

// The same truth value throughout.
pub fn known(b: bool) -> Judged
    ensures { Known result.yes result.no (λ k. b) }
{
    settled(masks::throughout(b))
}

// Neither true nor false anywhere.
pub fn neither() -> Judged
    ensures { (k : ℕ) → (bit result.yes k ≡ 0) × (bit result.no k ≡ 0) }
{
    Judged { yes: 0, no: 0 }
}

// The opposite, or the same.
pub fn turned(opposite: bool, r: Judged) -> Judged
    ensures { (opposite ≡ true → (result.yes ≡ r.no) × (result.no ≡ r.yes)) × (opposite ≡ false → result ≡ r) }
{
    if opposite {
        return Judged {
            yes: r.no,
            no: r.yes,
        };
    }
    r
}

// Whether the left side alone settles an and, or an or, throughout.
pub fn settles(and: bool, l: Judged) -> bool
    ensures { result ≡ true → (k : ℕ) (a b : Rule) → k < 64 → Says l.yes l.no k a
        → Says l.yes l.no k (Join (joint and) a b) }
{
    if and {
        return l.no == masks::ONES;
    }
    l.yes == masks::ONES
}

// An and, or an or.
pub fn joined(and: bool, l: Judged, r: Judged) -> Judged
    ensures { (k : ℕ) (a b : Rule) → Says l.yes l.no k a → Says r.yes r.no k b
        → Says result.yes result.no k (Join (joint and) a b) }
{
    if and {
        return Judged {
            yes: l.yes & r.yes,
            no: l.no | r.no,
        };
    }
    Judged {
        yes: l.yes | r.yes,
        no: l.no & r.no,
    }
}
