// The paper's examples that are not proved of the definitions: eliminates each, and writes what is answered.
#![tactic(auto)]

ghost use Rattle.std.specs.Prelude.{◌≡◌, ◌≤◌, length, take};

use leaveoff::eliminate;
use std::{io, iter};
use tables::kind::Kind;
use tables::words;

// For some x: 4096 divides x.
const ONE_DIVISOR: &[i32] = &[2, 3, 5, 8, 1, 6, 4096, 0, 1, 0, 0, 0, 0, 0];

// For some x: 0 < 3x+1-y, 0 < z+6-2x and 4 divides 5x+1.
const THREE_LITERALS: &[i32] = &[
    6, 7, 9, 11, 13, 21, 29, 8, 1, 2, 5, 2, 4, 5, 1, 3, -1, 0, 0, 0, 0, 5, 6, -2, 0, 1, 0, 0, 0, 6,
    4, 1, 5, 0, 0, 0, 0, 0,
];

// For some x: 4097 divides y and 0 < x.
const FOREIGN_DIVISOR: &[i32] = &[
    4, 5, 7, 9, 18, 8, 1, 2, 3, 6, 4097, 0, 0, 1, 0, 0, 0, 0, 5, 0, 1, 0, 0, 0, 0, 0,
];

// Puts words at the start of a table, as far as there is room; answers how many bytes they have.
fn store(table: &mut [u8], given: &[i32]) -> usize
    ensures { (result ≤ length table.new) × (result ≡ length (take result table.new)) }
{
    let fitting = given.len().min(table.len() / 4);
    for (bytes, word) in table.chunks_exact_mut(4).zip(given) {
        bytes.copy_from_slice(&word.to_le_bytes());
    }
    4 * fitting
}

// The bits of word i, where there is one.
fn word(table: &[u8], i: usize) -> Option<u32> {
    if i < words::count(table) {
        Some(words::natural(table, i) as u32)
    } else {
        None
    }
}

// The right side of a node that is an or.
fn right_side(table: &[u8], node: u32) -> Option<u32> {
    let place = word(table, node as usize + 1)? as usize;
    if word(table, place)? == Kind::Or as u32 {
        word(table, place + 1)
    } else {
        None
    }
}

// How many rules the ors from the root on join, nested to the right.
fn disjuncts(table: &[u8]) -> usize {
    iter::successors(Some(0), |node| right_side(table, *node))
        .take(16384)
        .count()
}

// A line: the example's words in the paper, then number, verdict, words and settings.
fn example(
    rt: &impl Print,
    name: &str,
    given: &[i32],
    out: &mut [u8],
    work: &mut [u8],
) -> io::Result<()> {
    let mut table = [0u8; 256];
    let end = store(&mut table, given);
    let answer = eliminate::eliminate(&table[..end], out, work);
    println!(rt;
        "{name} {} {} {} {}",
        answer.number, answer.verdict, answer.words, answer.settings
    )
}

fn main(rt: HostRuntime) -> io::Result<()> {
    let mut out = [0u8; 65536];
    let mut work = [0u8; 65536];
    example(&rt, "4096 divides x:", ONE_DIVISOR, &mut out, &mut work)?;
    example(
        &rt,
        "0 < 3x+1-y, 0 < z+6-2x, 4 divides 5x+1:",
        THREE_LITERALS,
        &mut out,
        &mut work,
    )?;
    let count = disjuncts(&out);
    println!(rt; "its disjuncts: {count}")?;
    example(
        &rt,
        "4097 divides y and 0 < x, for some x:",
        FOREIGN_DIVISOR,
        &mut out,
        &mut work,
    )
}
