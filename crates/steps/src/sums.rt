// The sums that step 3 puts in for x: j for the far-left body, b+j for the full one, b being the bound of the literal
// at some place.
ghost use Rattle.std.specs.Prelude.{◌≡◌, ◌≤◌, pos, nat_abs};
ghost use Rattle.rules.specs.Sum.{Sum, factor, add, number, limit};
ghost use Rattle.rules.specs.Eliminate.{most_period};
ghost use Rattle.rules.specs.Calls.{words as words_of};
ghost use Rattle.bodies.specs.Body.{BoundAt};
ghost use Rattle.steps.specs.Put.{SomeBound};

use tables::words;

// The sum j.
pub fn numeral(j: usize) -> [i64; 7]
    requires { j ≤ most_period }
    ensures { result ≡ number (pos j) }
{
    [j as i64, 0, 0, 0, 0, 0, 0]
}

// Word i of the bound of the literal whose body starts at place p: 0 for x, else that of T, negated. T stands behind
// the kind.
fn word(bodies: &[u8], p: usize, x: usize, i: usize) -> i64
    requires { SomeBound (words_of bodies.now) x p × (i ≤ 6) }
    ensures { ((b : Sum) → BoundAt (words_of bodies.now) x p b → result ≡ factor i b)
        × (nat_abs result ≤ limit) }
{
    if i == x {
        return 0;
    }
    0 - words::get(bodies, p + 1 + i) as i64
}

// The bound of the literal whose body starts at place p, with j added: T with no x, negated. Written out, since the
// first word has j besides: a loop over the six others and a first word of its own are no plainer.
pub fn above(bodies: &[u8], p: usize, x: usize, j: usize) -> [i64; 7]
    requires { SomeBound (words_of bodies.now) x p × (j ≤ most_period) }
    ensures { (b : Sum) → BoundAt (words_of bodies.now) x p b → result ≡ add b (number (pos j)) }
{
    [
        word(bodies, p, x, 0) + j as i64,
        word(bodies, p, x, 1),
        word(bodies, p, x, 2),
        word(bodies, p, x, 3),
        word(bodies, p, x, 4),
        word(bodies, p, x, 5),
        word(bodies, p, x, 6),
    ]
}
