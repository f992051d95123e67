// Words put in front of those that the end of a lent buffer holds. Past the room they are counted and not written.
ghost use Rattle.std.specs.Prelude.{◌≡◌, List, ◌∷◌, ◌++◌, ◌+◌, ◌<◌, ◌≤◌, ℤ, pos, length};
ghost use Rattle.rules.specs.Sum.{limit};
ghost use Rattle.rules.specs.Calls.{words as words_of};
ghost use Rattle.builder.specs.Built.{Ends, most_counted};

use tables::words;

// One word.
pub fn word(out: &mut [u8], used: usize, v: i32) -> usize
    requires { used < most_counted }
    ensures { ((l : List ℤ) → Ends (words_of out.old) used l
        → Ends (words_of out.new) result (v ∷ l)) × (result ≡ used + 1) }
{
    let room = words::count(out);
    if used < room {
        words::put(out, room - used - 1, v);
        return used + 1;
    }
    used + 1
}

// A number that lies within the limit where there is room for it.
pub fn number(out: &mut [u8], used: usize, n: usize) -> usize
    requires { (used < most_counted) × (used < length (words_of out.old) → n ≤ limit) }
    ensures { ((l : List ℤ) → Ends (words_of out.old) used l
        → Ends (words_of out.new) result (pos n ∷ l)) × (result ≡ used + 1) }
{
    if used < words::count(out) {
        return word(out, used, n as i32);
    }
    used + 1
}

// All words of a sum.
pub fn given(out: &mut [u8], used: usize, sum: &[i32]) -> usize
    requires { used + length sum.now < most_counted }
    ensures { ((l : List ℤ) → Ends (words_of out.old) used l
        → Ends (words_of out.new) result (sum.now ++ l)) × (result ≡ used + length sum.now) }
{
    let mut u = used;
    for v in sum.iter().rev() {
        u = word(out, u, *v);
    }
    u
}
