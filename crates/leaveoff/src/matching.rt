// Matching: whether a table's rule holds at six values, as a call answers it.
ghost use Rattle.std.specs.Prelude.{◌≡◌, [], ◌∷◌};
ghost use Rattle.rules.specs.Calls.{matched};
ghost use Rattle.leaveoff.specs.Outcome.{answer_of, SaysWhether};

use crate::answer;
use crate::answer::Answer;
use crate::verdict::Verdict;
use matcher::outcome;

// Matching, on any bytes and any six values: six numbers, as C hands them on.
pub fn matches(t: &[u8], s1: i32, s2: i32, s3: i32, s4: i32, s5: i32, s6: i32) -> Answer
    ensures result_value { answer_of result ≡ matched t.now s1 s2 s3 s4 s5 s6 }
    ensures says_whether { SaysWhether t.now (s1 ∷ s2 ∷ s3 ∷ s4 ∷ s5 ∷ s6 ∷ []) (answer_of result) }
{
    match outcome::matches(t, &[s1, s2, s3, s4, s5, s6]) {
        Ok(true) => answer::matched(Verdict::True.number()),
        Ok(false) => answer::matched(Verdict::False.number()),
        Err(refusal) => answer::refused(refusal.number()),
    }
}
