// "An answer holds its number": what a call refuses, each by the paper's number.
ghost use Rattle.std.specs.Prelude.{◌≡◌};
ghost use Rattle.tables.specs.Refusals.{number_of};

// Named by what is refused, in the order of the paper's numbers, 1 to 10.
#[derive(Clone, Copy, PartialEq, Eq)]
pub enum Refusal {
    Length = 1,
    Contents = 2,
    Node = 3,
    Tree = 4,
    Number = 5,
    Room = 6,
    Multiple = 7,
    Setting = 8,
    Value = 9,
    Quantifier = 10,
}

impl Refusal {
    // The paper's number.
    pub fn number(self) -> u32
        ensures { result ≡ number_of self }
    {
        self as u32
    }
}
