// The verdict of an answer, by its number.
ghost use Rattle.std.specs.Prelude.{◌≡◌};
ghost use Rattle.leaveoff.specs.Outcome.{verdict_number};

// Open: the result is neither a bare true nor a bare false.
#[derive(Clone, Copy)]
pub enum Verdict {
    True = 1,
    False = 2,
    Open = 3,
}

impl Verdict {
    pub fn number(self) -> u32
        ensures { result ≡ verdict_number self }
    {
        self as u32
    }
}
