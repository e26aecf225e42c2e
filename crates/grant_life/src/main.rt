// Lives of grants: a contractor is entered, a grant issued, opened, refused where it should be, refused for overwriting while the contractor is
// demoted, and refused for ever after the contractor's withdrawal. Prints each call's answer in the format of the independent program's `grants`
// (reference/README.md).

#![tactic(auto)]

use grant::Verdict;
use printing::{Draws, Hex};
use refusal::Reason;
use roll::Roll;
use std::io;

// What a life is about.
#[derive(Clone, Copy)]
struct Life<'a> {
    key: &'a [u8],
    rounds: u32,
    contractor: u32,
    size_block: u32,
    right: u32,
}

fn verdict(rt: &impl Print, v: Verdict) -> io::Result<()> {
    printing::answer(rt, v.map(|g| [g.contractor, u32::from(g.right)]))?;
    print!(rt; "\n")
}

// The roll after a call that may refuse, and then leaves it as it was.
fn changed(rt: &impl Print, roll: Roll, answer: Result<Roll, Reason>) -> io::Result<Roll> {
    printing::answer(rt, answer.map(|_| []))?;
    print!(rt; "\n")?;
    Ok(answer.unwrap_or(roll))
}

fn enter_line(rt: &impl Print, l: Life, roll: Roll) -> io::Result<Roll> {
    print!(rt; "enter {}", l.right)?;
    changed(rt, roll, roll_changes::enter(roll, l.contractor, l.right))
}

fn right_line(rt: &impl Print, l: Life, roll: Roll, highest: u32) -> io::Result<Roll> {
    print!(rt; "right {highest}")?;
    changed(
        rt,
        roll,
        roll_changes::change_right(roll, l.contractor, highest),
    )
}

fn withdraw_line(rt: &impl Print, l: Life, roll: Roll) -> io::Result<Roll> {
    print!(rt; "withdraw")?;
    changed(rt, roll, roll_changes::withdraw(roll, l.contractor))
}

fn issue_line(rt: &impl Print, l: Life, roll: Roll, asked: u32) -> io::Result<[u8; 12]> {
    let mut out = [0u8; 12];
    let o = issuing::issue(
        l.key,
        l.rounds,
        roll,
        l.contractor,
        l.size_block,
        asked,
        &mut out,
    );
    print!(rt; "issue {asked}")?;
    match o {
        Ok(()) => println!(rt; " 0 {}", Hex(&out))?,
        Err(reason) => println!(rt; " {}", u32::from(reason))?,
    }
    Ok(out)
}

// A check for a right, for the life's size block.
fn check_line(rt: &impl Print, l: Life, roll: Roll, grant: [u8; 12], asked: u32) -> io::Result<()> {
    print!(rt; "check {asked}")?;
    verdict(
        rt,
        checking::check(l.key, l.rounds, roll, &grant, l.size_block, asked),
    )
}

// A grant with one bit of each byte changed in turn.
fn damaged_lines(rt: &impl Print, l: Life, roll: Roll, grant: [u8; 12]) -> io::Result<()> {
    for at in 0..12 {
        let mut bytes = grant;
        bytes[at] ^= 1;
        print!(rt; "damaged {at}")?;
        verdict(
            rt,
            checking::check(l.key, l.rounds, roll, &bytes, l.size_block, l.right),
        )?;
    }
    Ok(())
}

fn head_line(rt: &impl Print, l: Life) -> io::Result<()> {
    print!(rt; "life {} {} {}", Hex(l.key), l.rounds, l.contractor)?;
    println!(rt; " {} {}", l.size_block, l.right)
}

// Demoted, raised and demoted again: what becomes of a grant from before, and of one that is issued while the right is overwriting. The
// roll that is left has reading as the highest right.
fn demotion_lines(
    rt: &impl Print,
    l: Life,
    roll: Roll,
    first: [u8; 12],
) -> io::Result<(Roll, [u8; 12])> {
    let low = right_line(rt, l, roll, 1)?;
    check_line(rt, l, low, first, 2)?;
    check_line(rt, l, low, first, 1)?;
    issue_line(rt, l, low, 2)?;
    let high = right_line(rt, l, low, 2)?;
    check_line(rt, l, high, first, l.right)?;
    let grant = issue_line(rt, l, high, 2)?;
    check_line(rt, l, high, grant, 2)?;
    let roll = right_line(rt, l, high, 1)?;
    check_line(rt, l, roll, grant, 2)?;
    check_line(rt, l, roll, grant, 1)?;
    Ok((roll, grant))
}

// From the first issue, which is refused, to the contractor's first grant.
fn first_lines(rt: &impl Print, l: Life) -> io::Result<(Roll, [u8; 12])> {
    let empty = roll::empty();
    head_line(rt, l)?;
    issue_line(rt, l, empty, l.right)?;
    let refused = right_line(rt, l, empty, 2)?;
    let roll = enter_line(rt, l, refused)?;
    let grant = issue_line(rt, l, roll, l.right)?;
    let other = if l.right == 1 { 2 } else { 1 };
    check_line(rt, l, roll, grant, l.right)?;
    let next = Life {
        size_block: l.size_block.wrapping_add(1),
        ..l
    };
    check_line(rt, next, roll, grant, l.right)?;
    check_line(rt, l, roll, grant, other)?;
    issue_line(rt, l, roll, other)?;
    Ok((roll, grant))
}

// And on to the contractor's second standing.
fn life_lines(rt: &impl Print, l: Life) -> io::Result<()> {
    let (roll, first) = first_lines(rt, l)?;
    let (low, high) = demotion_lines(rt, l, roll, first)?;
    let r1 = right_line(rt, l, low, 3)?;
    let r2 = enter_line(rt, l, r1)?;
    let r3 = withdraw_line(rt, l, r2)?;
    check_line(rt, l, r3, first, l.right)?;
    let r4 = withdraw_line(rt, l, r3)?;
    let r5 = right_line(rt, l, r4, 1)?;
    let r6 = enter_line(rt, l, r5)?;
    check_line(rt, l, r6, first, l.right)?;
    check_line(rt, l, r6, high, 2)?;
    let second = issue_line(rt, l, r6, l.right)?;
    check_line(rt, l, r6, second, l.right)?;
    check_line(rt, l, r6, first, l.right)?;
    check_line(rt, l, r6, second, 2)?;
    damaged_lines(rt, l, r6, second)
}

// A contractor, a size block and a right from the generator.
fn one_life(rt: &impl Print, draws: &mut Draws, key: &[u8], rounds: u32) -> io::Result<()> {
    let drawn = draws.bytes::<6>();
    let life = Life {
        key,
        rounds,
        contractor: 1 + u32::from(drawn[0]) % 200,
        size_block: u32::from_be_bytes([drawn[1], drawn[2], drawn[3], drawn[4]]),
        right: 1 + u32::from(drawn[5]) % 2,
    };
    life_lines(rt, life)
}

fn main(rt: HostRuntime) -> io::Result<()> {
    printing::each_key(4, |draws, key, rounds| one_life(&rt, draws, key, rounds))
}
