// The calls as the crate `leaveoff_c` exports them to C: each answer packed into 64 bits.
ghost use Rattle.std.specs.Prelude.{◌≡◌, [], ◌∷◌, length};
ghost use Rattle.rules.specs.Calls.{eliminated, left_off, matched};
ghost use Rattle.leaveoff.specs.Outcome.{Leaves, Eliminates, TestsLine, SaysWhether};
ghost use Rattle.leaveoff.specs.Outcome.{packed, unpacked};

use crate::{answer, eliminate, leave_off, matching};

// Elimination, on any bytes and any lent buffers.
pub fn leaveoff_eliminate(table: &[u8], out: &mut [u8], work: &mut [u8]) -> u64
    ensures leaves { Leaves (eliminated table.now (length out.old) (length work.old))
        result out.new work.new }
    ensures eliminates { Eliminates table.now out.new (unpacked result) }
{
    answer::pack(eliminate::eliminate(table, out, work))
}

// The leave-off test, on any bytes, any setting and any lent buffers.
pub fn leaveoff_test(table: &[u8], setting: i32, out: &mut [u8], work: &mut [u8]) -> u64
    ensures leaves { Leaves
        (left_off table.now setting (length out.old) (length work.old))
        result out.new work.new }
    ensures tests_line { TestsLine table.now setting (unpacked result) }
{
    answer::pack(leave_off::leave_off(table, setting, out, work))
}

// Matching, on any bytes and any six values: six numbers, as the C interface has them.
pub fn leaveoff_match(table: &[u8], s1: i32, s2: i32, s3: i32, s4: i32, s5: i32, s6: i32) -> u64
    ensures value { result ≡ packed (matched table.now s1 s2 s3 s4 s5 s6) }
    ensures says_whether { SaysWhether table.now (s1 ∷ s2 ∷ s3 ∷ s4 ∷ s5 ∷ s6 ∷ []) (unpacked result) }
{
    answer::pack(matching::matches(table, s1, s2, s3, s4, s5, s6))
}
