// Whole numbers in decimal, put into lent bytes. The digits are the library's own: std's formatting states its bytes
// only where it did not fail, and these calls cannot fail.
ghost use Rattle.std.specs.Prelude.{◌+◌, ◌≤◌, length, pos};
ghost use Rattle.text.specs.Decimal.{decimal, number};
ghost use Rattle.text.specs.Placed.{Puts};

use crate::lent::Text;

impl Text<'_> {
    // The digits of a number; the first is 0 only where it is alone.
    pub fn natural(&mut self, n: u64)
        requires { self.old.at + length (decimal n) ≤ length self.old.bytes.now }
        ensures { Puts self.old (decimal n) self.new }
    {
        if n >= 10 {
            self.natural(n / 10);
        }
        self.byte(b'0' + (n % 10) as u8);
    }

    // A number, with its sign where it is below 0.
    pub fn whole(&mut self, n: i64)
        requires { self.old.at + length (number n) ≤ length self.old.bytes.now }
        ensures { Puts self.old (number n) self.new }
    {
        if n < 0 {
            self.byte(b'-');
        }
        self.natural(n.unsigned_abs());
    }
}
