// The answer of a call, and its 64 bits.
ghost use Rattle.std.specs.Prelude.{◌≡◌};
ghost use Rattle.rules.specs.Answer.{refusal};
ghost use Rattle.leaveoff.specs.Outcome.{answer_of, verdict_alone, packed, Fits};

// Its number, 0 where the call answered; a verdict (1 true, 2 false, 3 open); the words of the result; and the settings
// that occur in it, setting v as bit v - 1. Numbers, since these are the 64 bits that C is answered.
#[derive(Clone, Copy)]
pub struct Answer {
    pub number: u32,
    pub verdict: u32,
    pub words: u32,
    pub settings: u32,
}

// "A refusal has zeros in all three."
pub fn refused(number: u32) -> Answer
    ensures { answer_of result ≡ refusal number }
{
    Answer {
        number,
        verdict: 0,
        words: 0,
        settings: 0,
    }
}

// What matching answers: its verdict alone, by its number, as the answer has it.
pub fn matched(verdict: u32) -> Answer
    ensures { answer_of result ≡ verdict_alone verdict }
{
    Answer {
        number: 0,
        verdict,
        words: 0,
        settings: 0,
    }
}

// The answer of an export.
pub fn pack(a: Answer) -> u64
    requires { Fits (answer_of a) }
    ensures { result ≡ packed (answer_of a) }
{
    a.number as u64
        + a.verdict as u64 * 256
        + a.settings as u64 * 1024
        + a.words as u64 * 4294967296
}
