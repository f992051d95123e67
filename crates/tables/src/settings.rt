// "A set of settings that occur in it, bit v−1 standing for setting v": six bits, by shifts and masks, as the paper
// says.
ghost use Rattle.std.specs.Prelude.{◌≡◌, Bool, ◌||◌, ℕ, ◌≤◌, eqb};
ghost use Rattle.tables.specs.Settings.{IsSet};

// The set of v alone.
pub fn one(v: u32) -> u32
    requires { (1 ≤ v) × (v ≤ 6) }
    ensures { IsSet result (λ w. eqb w v) }
{
    1 << (v - 1)
}

// The settings of either set.
pub fn join(a: u32, b: u32) -> u32
    ensures { (p q : ℕ → Bool) → IsSet a p → IsSet b q → IsSet result (λ v. p v || q v) }
{
    a | b
}

// Whether v is in the set.
pub fn has(s: u32, v: u32) -> bool
    requires { (1 ≤ v) × (v ≤ 6) }
    ensures { (p : ℕ → Bool) → IsSet s p → result ≡ p v }
{
    s >> (v - 1) & 1 == 1
}
