// The literals of a body, one after the other.
ghost use Rattle.std.specs.Prelude.{◌-◌};
ghost use Rattle.std.specs.Iterator.{at_most};
ghost use Rattle.rules.specs.Calls.{words as words_of};
ghost use Rattle.bodies.specs.Body.{SomeBody, WhicheverRule};
ghost use Rattle.bodies.specs.Cursor.{literals_of, Left, SomeLeft, GivesFirst};

use tables::{reading, words};

// An iterator over the places where they stand.
#[derive(Drop)]
pub struct Literals<'a> {
    bodies: &'a [u8],
    place: usize,
    end: usize,
}

impl<'a> Literals<'a> {
    // Those of the body that ends at word `end`. The slice goes on behind it, since a body is a part that starts in the
    // middle of a table: what is told of places in the body is told of that part, in which the steps go on.
    pub fn of(bodies: &'a [u8], end: usize) -> Literals<'a>
        requires { SomeBody (words_of bodies.now) end }
        ensures { SomeLeft result × WhicheverRule (words_of bodies.now) end
            (λ a. Left (words_of bodies.now) end result (literals_of a)) }
    {
        Literals {
            bodies,
            place: 0,
            end,
        }
    }
}

impl<'a> Iterator for Literals<'a> {
    type Item = usize;

    ghost can_next = { SomeLeft };

    ghost next_gives = { GivesFirst };

    ghost remaining = { λ it. at_most (it.end - it.place) };

    // A literal alone has more than seven words. The loop counts no index: each node says how many words it has.
    fn next(&mut self) -> Option<usize> {
        while self.place < self.end {
            let place = self.place;
            let width = reading::width(words::natural(self.bodies, place));
            self.place += width;
            if 7 < width {
                return Some(place);
            }
        }
        None
    }
}
