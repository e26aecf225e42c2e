// Reads rows of numbers, a call on roll or grant and what it is given, and prints what the call answers, with whether every byte that it has
// no leave to write was left alone. The rows have each reason for refusing alone, each two that can hold together, and both sides of every
// limit (tools/expected-grants).

#![tactic(auto)]

use printing::{echo, echo_u32, first, first_mut};
use refusal::Reason;
use roll::Roll;
use std::io;

const MARK: u8 = 165;

// Contractors 1, 2 and 200 have the count that is read, and everyone else 0.
fn echo_counts(rt: &(impl Print + Input)) -> io::Result<[u16; 200]> {
    let count = (echo(rt)? % 65536) as u16;
    let mut counts = [0u16; 200];
    counts[0] = count;
    counts[1] = count;
    counts[199] = count;
    Ok(counts)
}

fn echo_figure(rt: &(impl Print + Input)) -> io::Result<u8> {
    Ok((echo(rt)? % 256) as u8)
}

// A roll to be changed: contractors 1, 2 and 200 have the figure that is read, and everyone else that of an empty one.
fn echo_roll(rt: &(impl Print + Input)) -> io::Result<Roll> {
    let counts = echo_counts(rt)?;
    let figure = echo_figure(rt)?;
    let mut rights = [1u8; 200];
    rights[0] = figure;
    rights[1] = figure;
    rights[199] = figure;
    Ok(Roll { counts, rights })
}

// One contractor has a figure, and everyone else one that means the other right.
// Kept: a roll's figures are bytes, and the rows have ones that mean no right.
fn rights_with(contractor: u32, figure: u8) -> [u8; 200] {
    let other: u8 = if figure == 2 { 1 } else { 2 };
    let mut rights = [other; 200];
    if 0 < contractor {
        let at = (contractor - 1) as usize;
        if at < 200 {
            rights[at] = figure;
        }
    }
    rights
}

// A roll to be looked at, and the contractor of the call, who alone has the figure that is read.
fn echo_looked(rt: &(impl Print + Input)) -> io::Result<(Roll, u32)> {
    let counts = echo_counts(rt)?;
    let figure = echo_figure(rt)?;
    let contractor = echo_u32(rt)?;
    let rights = rights_with(contractor, figure);
    Ok((Roll { counts, rights }, contractor))
}

// The counts of contractors 1, 2 and 200 after a call, which leaves the roll as it was where it refuses, and then their figures.
fn changed(rt: &impl Print, roll: Roll, answer: Result<Roll, Reason>) -> io::Result<()> {
    let after = answer.unwrap_or(roll);
    let counts = after.counts;
    let rights = after.rights;
    printing::answer(rt, answer.map(|_| []))?;
    print!(rt; " {} {} {}", counts[0], counts[1], counts[199])?;
    println!(rt; " {} {} {}", rights[0], rights[1], rights[199])
}

// An entry, or a change of a contractor's right.
fn right_line<F: FnOnce(Roll, u32, u32) -> Result<Roll, Reason>>(
    rt: &(impl Print + Input),
    name: &str,
    call: F,
) -> io::Result<()>
    requires { F.IsAlwaysCallable call }
{
    print!(rt; "{name}")?;
    let roll = echo_roll(rt)?;
    let contractor = echo_u32(rt)?;
    let right = echo_u32(rt)?;
    changed(rt, roll, call(roll, contractor, right))
}

fn withdraw_line(rt: &(impl Print + Input)) -> io::Result<()> {
    print!(rt; "withdraw")?;
    let roll = echo_roll(rt)?;
    let c = echo_u32(rt)?;
    changed(rt, roll, roll_changes::withdraw(roll, c))
}

// The size block that stands in a grant, which a key with a round count deciphers.
fn named_block(key: &[u8], rounds: u32, issued: &[u8]) -> u32 {
    let mut plain = [0u8; 12];
    let _ = cipher::decipher(key, rounds, issued, &mut plain);
    grant::size_block_in(&plain)
}

// An issue, and the size block that stands in what was issued.
fn issue_line(rt: &(impl Print + Input)) -> io::Result<()> {
    print!(rt; "issue")?;
    let k = echo(rt)?;
    let rounds = echo_u32(rt)?;
    let o = echo(rt)?;
    let (roll, contractor) = echo_looked(rt)?;
    let asked = echo_u32(rt)?;
    let right = echo_u32(rt)?;
    let bytes = [7u8; 32];
    let key = first(&bytes, k);
    let mut out = [MARK; 16];
    let room = first_mut(&mut out, o);
    let answer = issuing::issue(key, rounds, roll, contractor, asked, right, room);
    let written = if answer.is_ok() { 12 } else { 0 };
    printing::answer(
        rt,
        answer.map(|_| [named_block(key, rounds, first(&out, 12))]),
    )?;
    printing::kept(rt, &out, written, MARK)
}

// Twelve plain bytes that are a grant of a contractor, or not quite: count, size block, right and mark are read.
fn echo_plain(rt: &(impl Print + Input), contractor: u32) -> io::Result<[u8; 12]> {
    let c = contractor.to_be_bytes();
    let n = echo_u32(rt)?.to_be_bytes();
    let b = echo_u32(rt)?.to_be_bytes();
    let r = echo_u32(rt)?.to_be_bytes();
    let m = echo_u32(rt)?.to_be_bytes();
    Ok([
        c[2], c[3], n[2], n[3], b[0], b[1], b[2], b[3], r[3], m[1], m[2], m[3],
    ])
}

// A grant, enciphered under twelve bytes of the key with ten rounds, and checked. It is made without an issue, so that it can name size block 0.
fn check_line(rt: &(impl Print + Input)) -> io::Result<()> {
    print!(rt; "check")?;
    let k = echo(rt)?;
    let rounds = echo_u32(rt)?;
    let l = echo(rt)?;
    let asked = echo_u32(rt)?;
    let right = echo_u32(rt)?;
    let (roll, contractor) = echo_looked(rt)?;
    let plain = echo_plain(rt, contractor)?;
    let key = [7u8; 32];
    let mut grant = [0u8; 16];
    let _ = cipher::encipher(first(&key, 12), 10, &plain, &mut grant);
    let verdict = checking::check(first(&key, k), rounds, roll, first(&grant, l), asked, right);
    printing::answer(rt, verdict.map(|g| [g.contractor, u32::from(g.right)]))?;
    print!(rt; "\n")
}

fn line(rt: &(impl Print + Input), call: u64) -> io::Result<()> {
    match call {
        1 => right_line(rt, "enter", roll_changes::enter),
        2 => right_line(rt, "right", roll_changes::change_right),
        3 => withdraw_line(rt),
        4 => issue_line(rt),
        _ => check_line(rt),
    }
}

fn main(rt: HostRuntime) -> io::Result<()> {
    printing::each_row(&rt, |call| line(&rt, call))
}
