// Reads rows of numbers, a call and its lengths and counts, and prints what the call answers and whether every byte that it must leave alone
// was left alone: all of the output where it refuses, and what lies past the written bytes where it does not. The rows have each reason
// for refusing alone, each two that can hold together, and both sides of every limit (tools/expected-refusals).

#![tactic(auto)]

use key_lists::Direction;
use printing::{echo, echo_u32, first, first_mut};
use refusal::Reason;
use std::io;

const MARK: u8 = 165;

// The end of a line: the number, and whether all bytes from `written` on, or all of them after a refusal, still bear the mark.
fn answer(
    rt: &impl Print,
    outcome: Result<(), Reason>,
    out: &[u8],
    written: usize,
) -> io::Result<()> {
    let from = if outcome.is_ok() { written } else { 0 };
    printing::answer(rt, outcome.map(|_| []))?;
    printing::kept(rt, out, from, MARK)
}

// A call on a block, for a direction.
fn cipher_line(rt: &(impl Print + Input), name: &str, direction: Direction) -> io::Result<()> {
    print!(rt; "{name}")?;
    let k = echo(rt)?;
    let rounds = echo_u32(rt)?;
    let b = echo(rt)?;
    let o = echo(rt)?;
    let mut out = [MARK; 32];
    let key = [7u8; 32];
    let block = [9u8; 16];
    let key = first(&key, k);
    let block = first(&block, b);
    let room = first_mut(&mut out, o);
    let outcome = match direction {
        Direction::Enciphering => cipher::encipher(key, rounds, block, room),
        Direction::Deciphering => cipher::decipher(key, rounds, block, room),
    };
    answer(rt, outcome, &out, 12)
}

fn prepare_line(rt: &(impl Print + Input), name: &str, direction: Direction) -> io::Result<()> {
    print!(rt; "{name}")?;
    let k = echo(rt)?;
    let rounds = echo_u32(rt)?;
    let o = echo(rt)?;
    let mut out = [MARK; 320];
    let outcome = lists::prepare(
        first(&[7u8; 32], k),
        rounds,
        direction,
        first_mut(&mut out, o),
    );
    answer(rt, outcome, &out, 12 * (rounds as usize + 1))
}

fn run_line(rt: &(impl Print + Input)) -> io::Result<()> {
    print!(rt; "run")?;
    let l = echo(rt)?;
    let b = echo(rt)?;
    let o = echo(rt)?;
    let mut out = [MARK; 32];
    let outcome = engine::run(
        first(&[7u8; 320], l),
        first(&[9u8; 16], b),
        first_mut(&mut out, o),
    );
    answer(rt, outcome, &out, 12)
}

fn line(rt: &(impl Print + Input), call: u64) -> io::Result<()> {
    match call {
        1 => cipher_line(rt, "encipher", Direction::Enciphering),
        2 => cipher_line(rt, "decipher", Direction::Deciphering),
        3 => prepare_line(rt, "prepare_enciphering", Direction::Enciphering),
        4 => prepare_line(rt, "prepare_deciphering", Direction::Deciphering),
        _ => run_line(rt),
    }
}

fn main(rt: HostRuntime) -> io::Result<()> {
    printing::each_row(&rt, |call| line(&rt, call))
}
