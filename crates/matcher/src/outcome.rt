// What matching answers: a refusal, or whether the rule holds.
ghost use Rattle.std.specs.Prelude.{◌≡◌};
ghost use Rattle.matcher.specs.Outcome.{result_of, matching_of};

use crate::{range, walk};
use tables::refusal::Refusal;
use tables::{check, quantifiers};

// Matching, on any bytes and any six values: "for matching 10, then 9".
pub fn matches(t: &[u8], values: &[i32; 6]) -> Result<bool, Refusal>
    ensures { result_of result ≡ matching_of t.now values.now }
{
    let n = check::check(t)?;
    if quantifiers::last(t, n).is_some() {
        return Err(Refusal::Quantifier);
    }
    if !range::all_within(values) {
        return Err(Refusal::Value);
    }
    Ok(walk::verdict(t, 0, n + 1, values))
}
