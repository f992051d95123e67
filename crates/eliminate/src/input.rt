// The bytes that the program is given.
ghost use Rattle.std.specs.Prelude.{◌<◌, length, take, IfOk};
ghost use Rattle.std.specs.Io.KnownBytes.{Consumes, IsAtEnd};
ghost use Rattle.eliminate.specs.Counts.{IsPrefixLen};

use std::io;
use std::io::Read;

// Reads until the buffer is full or the input ends; answers how many bytes it put at the start of the buffer.
pub fn fill<R: Read>(reader: &mut R, buffer: &mut [u8]) -> io::Result<usize>
    ensures prefix_len { IfOk result (λ n. IsPrefixLen n buffer.new) }
    ensures consumed { IfOk result (λ n. Consumes (R.remaining reader.old) (R.remaining reader.new) (take n buffer.new)) }
    ensures ended { IfOk result (λ n. n < length buffer.new → IsAtEnd (R.remaining reader.new)) }
{
    // Not read_exact, which refuses an input that ends, nor read_to_end, which needs a Vec.
    let mut count = 0;
    while count < buffer.len() {
        let more = reader.read(&mut buffer[count..])?;
        if more == 0 {
            break;
        }
        count += more;
    }
    Ok(count)
}
