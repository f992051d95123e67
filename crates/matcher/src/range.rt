// "a matched value is outside ±500,000,000": whether six values are in range.
ghost use Rattle.std.specs.Prelude.{◌≡◌};
ghost use Rattle.rules.specs.Sum.{all_within};
ghost use Rattle.rules.specs.Match.{most_value};

const MOST_VALUE: u32 = 500000000;

pub fn all_within(values: &[i32; 6]) -> bool
    ensures { result ≡ all_within most_value values.now }
{
    values.iter().all(|v| v.unsigned_abs() <= MOST_VALUE)
}
