// Signed words of 32 bits in lent bytes, the low byte first.
ghost use Rattle.std.specs.Prelude.{◌≡◌, [], ◌∷◌, ◌+◌, ◌*◌, ◌<◌, ◌≤◌, pos, length, get_or, set, replicate};
ghost use Rattle.std.proofs.lemmas.List.Edits.{sets};
ghost use Rattle.rules.specs.Calls.{signed, words, bytes_of, room as room_of};
ghost use Rattle.tables.specs.WordBytes.{bits_at};

// How many words there are; up to three bytes at the end are of none.
pub fn count(b: &[u8]) -> usize
    ensures { result ≡ length (words b.now) }
{
    b.len() / 4
}

// The bits of word i.
fn bits(b: &[u8], i: usize) -> u32
    requires { i * 4 + 4 ≤ length b.now }
    ensures { result ≡ bits_at b.now i }
{
    let p = i * 4;
    u32::from_le_bytes([b[p], b[p + 1], b[p + 2], b[p + 3]])
}

// Word i.
pub fn get(b: &[u8], i: usize) -> i32
    requires { i < length (words b.now) }
    ensures { result ≡ get_or (words b.now) i (pos 0) }
{
    bits(b, i).cast_signed()
}

// The bits of word i, for a kind, a count or a place: a caller compares it with no thought of signs.
pub fn natural(b: &[u8], i: usize) -> usize
    requires { i < length (words b.now) }
    ensures { (result < 4294967296) × (get_or (words b.now) i (pos 0) ≡ signed result) }
{
    bits(b, i) as usize
}

// Replaces word i. The second fact says what every byte is afterwards, those of no word too.
pub fn put(b: &mut [u8], i: usize, v: i32)
    requires { i < length (words b.old) }
    ensures { (words b.new ≡ set (words b.old) i v)
        × (b.new ≡ sets b.old (i * 4) (bytes_of (v ∷ []))) }
{
    let p = i * 4;
    b[p..p + 4].copy_from_slice(&v.to_le_bytes());
}

// Leaves a zero in every byte, those of no word too.
pub fn zero(b: &mut [u8])
    ensures { b.new ≡ replicate (length b.old) 0 }
{
    b.fill(0);
}

// "over 16,384 words": the most that a table has.
pub const MOST_WORDS: usize = 16384;

// The room in words, of the lent lengths in bytes.
pub fn room(out: usize, work: usize) -> usize
    ensures { result ≡ room_of out work }
{
    (out / 4).min(work / 4).min(MOST_WORDS)
}
