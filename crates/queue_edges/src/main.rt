// Reads rows of numbers, lengths and what else a queue is checked with, and prints what the call answers: its number, the bytes for the
// grants, and whether every byte that it has no leave to write was left alone. The rows have each reason for refusing alone, each two that can hold
// together, and both sides of every limit (tools/expected-queue).

#![tactic(auto)]

use printing::{Hex, echo, echo_u32, first, first_mut};
use roll::Roll;
use std::io;

const MARK: u8 = 165;

// Plain bytes: contractor, count, size block and right, and the mark of a grant.
fn plain(contractor: u8, count: u8, block: u32, right: u8) -> [u8; 12] {
    let block = block.to_be_bytes();
    [
        0, contractor, 0, count, block[0], block[1], block[2], block[3], right, 71, 82, 68,
    ]
}

// Seventeen kinds of grants. Asked for size block 300, two open for overwriting and eight for reading.
fn kinds() -> [[u8; 12]; 17] {
    [
        plain(1, 1, 300, 2),
        plain(1, 1, 300, 1),
        plain(1, 1, 301, 2),
        plain(1, 1, 300, 3),
        plain(2, 2, 300, 2),
        plain(3, 1, 300, 2),
        plain(3, 3, 300, 2),
        // Those of contractors in standing who may only read.
        plain(5, 5, 300, 2),
        plain(7, 7, 300, 1),
        plain(7, 7, 300, 2),
        plain(7, 7, 301, 2),
        plain(9, 9, 300, 2),
        plain(7, 7, 300, 3),
        plain(11, 11, 300, 2),
        plain(5, 3, 300, 2),
        // Those for other size blocks: for 0, as one that was issued before that was refused, and for one of which the lower three bytes are 0.
        plain(1, 1, 0, 2),
        plain(1, 1, 16777216, 2),
    ]
}

// One grant more than a queue may have, of each kind in turn, enciphered under twelve bytes of the key with ten rounds.
fn grants() -> [u8; 780] {
    let kinds = kinds();
    let mut out = [0u8; 780];
    for (i, grant) in out.chunks_exact_mut(12).enumerate() {
        let _ = cipher::encipher(&[7u8; 12], 10, &kinds[i % 17], grant);
    }
    out
}

// Contractors 1, 2, 3, 5, 7, 9 and 11 have their numbers as counts, and everyone else has 0.
fn counts() -> [u16; 200] {
    let mut counts = [0u16; 200];
    counts[0] = 1;
    counts[1] = 2;
    counts[2] = 3;
    counts[4] = 5;
    counts[6] = 7;
    counts[8] = 9;
    counts[10] = 11;
    counts
}

// Contractors 2 and 7 may only read, and so may 5, 9 and 11, whose figures stand for no right. Everyone else may overwrite.
fn rights() -> [u8; 200] {
    let mut rights = [2u8; 200];
    rights[1] = 1;
    rights[4] = 3;
    rights[6] = 1;
    rights[8] = 0;
    rights[10] = 255;
    rights
}

fn line(rt: &(impl Print + Input), grants: &[u8; 780]) -> io::Result<()> {
    print!(rt; "queue")?;
    let k = echo(rt)?;
    let rounds = echo_u32(rt)?;
    let l = echo(rt)?;
    let o = echo(rt)?;
    let asked = echo_u32(rt)?;
    let right = echo_u32(rt)?;
    let roll = Roll {
        counts: counts(),
        rights: rights(),
    };
    let mut out = [MARK; 80];
    let answer = queue::check(
        first(&[7u8; 32], k),
        rounds,
        roll,
        first(grants, l),
        asked,
        right,
        first_mut(&mut out, o),
    );
    let written = if answer.is_ok() { l / 12 } else { 0 };
    printing::answer(rt, answer.map(|_| []))?;
    print!(rt; " {}", Hex(first(&out, written)))?;
    printing::kept(rt, &out, written, MARK)
}

fn main(rt: HostRuntime) -> io::Result<()> {
    let grants = grants();
    printing::each_row(&rt, |_| line(&rt, &grants))
}
