// Lines of numbers, put into lent bytes.
ghost use Rattle.std.specs.Prelude.{List, [], ◌∷◌, ◌+◌, ◌*◌, ◌≤◌, pos, map, length};
ghost use Rattle.rules.specs.Table.{Node};
ghost use Rattle.rules.specs.Calls.{words as words_of};
ghost use Rattle.tables.specs.Checks.{ListedAs, Listed};
ghost use Rattle.text.specs.Lines.{spaced as spaced_of, line as line_of, lines as lines_of};
ghost use Rattle.text.specs.Placed.{Puts};

use crate::lent::Text;
use tables::kind::Kind;
use tables::words;

impl Text<'_> {
    // A space and a number.
    fn spaced(&mut self, n: i64)
        requires { self.old.at + length (spaced_of (n ∷ [])) ≤ length self.old.bytes.now }
        ensures { Puts self.old (spaced_of (n ∷ [])) self.new }
    {
        self.byte(b' ');
        self.whole(n);
    }

    // A line of four numbers: at most 44 characters. Not one with `line`: over an iterator a clause would have to say
    // what it yields.
    pub fn four(&mut self, first: u32, others: [u32; 3])
        requires { self.old.at + 44 ≤ length self.old.bytes.now }
        ensures line { Puts self.old (line_of (pos first) (map pos others)) self.new }
        ensures short { self.new.at ≤ self.old.at + 44 }
    {
        self.natural(u64::from(first));
        for n in others {
            self.spaced(i64::from(n));
        }
        self.byte(b'\n');
    }

    // A line: a number, and these words.
    fn line(&mut self, first: u32, words: &[u8])
        requires { self.old.at + 12 * (1 + length (words_of words.now)) ≤ length self.old.bytes.now }
        ensures line { Puts self.old (line_of (pos first) (words_of words.now)) self.new }
        ensures short { self.new.at ≤ self.old.at + 12 * (1 + length (words_of words.now)) }
    {
        self.natural(u64::from(first));
        for i in 0..words::count(words) {
            self.spaced(i64::from(words::get(words, i)));
        }
        self.byte(b'\n');
    }

    // "a line per node: its number and its body", of these bodies, which are those of `left` nodes.
    pub fn lines(&mut self, bodies: &[u8], left: usize)
        requires listed { Listed (words_of bodies.now) 0 left }
        requires few { left + length (words_of bodies.now) ≤ 16384 }
        requires room { self.old.at + 12 * (left + length (words_of bodies.now)) ≤ length self.old.bytes.now }
        ensures lines { (ds : List Node) → ListedAs (words_of bodies.now) 0 left ds
            → Puts self.old (lines_of 0 ds) self.new }
        ensures short { self.new.at ≤ self.old.at + 12 * (left + length (words_of bodies.now)) }
    {
        let mut place = 0;
        for i in 0..left {
            let end = place + Kind::at(bodies, place).width();
            self.line(i as u32, &bodies[place * 4..end * 4]);
            place = end;
        }
    }
}
