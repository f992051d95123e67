// T at x = w is T + f·(w − x), where f is the factor of x in T: no word is an exception. So what is carried to the
// literals of a body is w − x, where w is u + j.
ghost use Rattle.std.specs.Prelude.{◌≡◌, ◌≤◌, pos};
ghost use Rattle.rules.specs.Sum.{limit, add, number};
ghost use Rattle.rules.specs.Eliminate.{most_period};
ghost use Rattle.literals.specs.Rows.{most_put};
ghost use Rattle.literals.specs.Changes.{InRange};
ghost use Rattle.judging.specs.Judging.{Sized};
ghost use Rattle.judging.specs.Shifts.{less};

// u + j − x.
pub fn shifted(u: &[i64; 7], j: usize, x: usize) -> [i64; 7]
    requires { Sized limit u.now × (j ≤ most_period) × InRange x }
    ensures { (result ≡ less x (add u.now (number (pos j)))) × Sized most_put result }
{
    let mut v = *u;
    v[0] += j as i64;
    v[x] -= 1;
    v
}
