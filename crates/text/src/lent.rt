// Text in lent bytes, put one character behind the other.
ghost use Rattle.std.specs.Prelude.{[], ◌∷◌, ◌<◌, length};
ghost use Rattle.text.specs.Placed.{Puts};

// The lent bytes, and the place behind what was put.
#[derive(Drop)]
pub struct Text<'a> {
    pub bytes: &'a mut [u8],
    pub at: usize,
}

impl Text<'_> {
    pub(crate) fn byte(&mut self, b: u8)
        requires { self.old.at < length self.old.bytes.now }
        ensures { Puts self.old (b ∷ []) self.new }
    {
        self.bytes[self.at] = b;
        self.at += 1;
    }
}
