// The program: eliminates the quantifiers of the table on standard input, and prints what is answered.
#![tactic(auto)]

mod input;
mod report;

use std::io;

fn main(rt: HostRuntime) -> io::Result<()> {
    // One byte more than a table may have: where it is filled the length is odd, which is refused by 1.
    let mut table = [0u8; 65537];
    let mut stdin = rt.stdin();
    let length = input::fill(&mut stdin, &mut table)?;
    let mut text = [0u8; 196640];
    let end = report::report(&table[..length], &mut text);
    rt.write_all(&text[..end])
}
