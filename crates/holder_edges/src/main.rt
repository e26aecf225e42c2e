// Reads rows of numbers, a call on a key holder and what it is given, and prints what the call answers, with whether a refused call left the
// holder as it was. The rows have each reason for refusing alone and each two that can hold together, and both sides of every limit: key
// lengths, stage numbers, half a turn from every stage, and holders that are not whole (tools/expected-edges).

#![tactic(auto)]

use holder::{Holder, Way};
use holder_walk::Walked;
use printing::{echo, first};
use refusal::Reason;
use std::io;

// A refusal's number, or 0, and what stands for the answer.
fn answered<T: Drop>(answer: Result<T, Reason>, refused: T) -> (u32, T) {
    match answer {
        Ok(done) => (0, done),
        Err(reason) => (u32::from(reason), refused),
    }
}

fn way(w: Way) -> &'static str {
    match w {
        Way::Forward => "forward",
        Way::Back => "back",
    }
}

// The answer of a call that makes a holder: a key's length and a stage's number, as the holder has them.
fn made(rt: &impl Print, answer: Result<Holder, Reason>) -> io::Result<()> {
    let (n, h) = answered(answer, Holder::default());
    println!(rt; " {n} {} {}", h.length, h.number)
}

// Kept: beside `straight_line`; they differ in the call and in what a row has for it.
fn make_line(rt: &(impl Print + Input)) -> io::Result<()> {
    print!(rt; "make")?;
    let k = echo(rt)?;
    made(rt, holder_from_key::make(first(&[7u8; 32], k)))
}

fn straight_line(rt: &(impl Print + Input)) -> io::Result<()> {
    print!(rt; "straight")?;
    let k = echo(rt)?;
    let n = echo(rt)?;
    made(rt, holder_from_key::straight(first(&[7u8; 32], k), n))
}

// A walk's number, and what it answers; where it is refused, the holder as it was and no steps forward.
fn walked(h: Holder, d: usize) -> (u32, Walked) {
    let stayed = Walked {
        holder: h,
        steps: 0,
        way: Way::Forward,
    };
    answered(holder_walk::walk(h, d), stayed)
}

fn walk_line(rt: &(impl Print + Input)) -> io::Result<()> {
    print!(rt; "walk")?;
    let k = echo(rt)?;
    let s = echo(rt)?;
    let d = echo(rt)?;
    let from = holder_from_key::straight(first(&[7u8; 32], k), s);
    let (n, w) = walked(from.unwrap_or_default(), d);
    print!(rt; " {n} {} {}", w.steps, way(w.way))?;
    println!(rt; " {} {}", w.holder.length, w.holder.number)
}

fn kept(same: bool) -> &'static str {
    if same { "kept" } else { "changed" }
}

fn step_case(rt: &impl Print, h: Holder) -> io::Result<()> {
    let (n, forward) = answered(holder_steps::forward(h), h);
    print!(rt; " forward {n} {}", kept(forward == h))?;
    let (n, back) = answered(holder_steps::back(h), h);
    print!(rt; " back {n} {}", kept(back == h))
}

fn walk_case(rt: &impl Print, h: Holder, d: usize) -> io::Result<()> {
    let (n, w) = walked(h, d);
    print!(rt; " walk {d} {n} {}", kept(w.holder == h))?;
    print!(rt; " {} {}", w.steps, way(w.way))
}

// A refused request for the subkey answers no subkey: zeros stand for it.
fn subkey_case(rt: &impl Print, h: Holder) -> io::Result<()> {
    let (n, k) = answered(holder_steps::subkey(h), [0u8; 12]);
    let given = if k == [0u8; 12] { "zeros" } else { "given" };
    println!(rt; " subkey {n} {given}")
}

// Every call on a holder that no call made, whole or not. There is no stage 99.
fn handed_line(rt: &(impl Print + Input)) -> io::Result<()> {
    let mut bytes = [0u8; 24];
    print!(rt; "handed")?;
    let length = echo(rt)?;
    let number = echo(rt)?;
    let place = echo(rt)?;
    bytes[place % 24] = 1;
    let h = Holder {
        length,
        number,
        bytes,
    };
    step_case(rt, h)?;
    walk_case(rt, h, 0)?;
    walk_case(rt, h, 99)?;
    subkey_case(rt, h)
}

fn line(rt: &(impl Print + Input), call: u64) -> io::Result<()> {
    match call {
        1 => make_line(rt),
        2 => straight_line(rt),
        3 => walk_line(rt),
        _ => handed_line(rt),
    }
}

fn main(rt: HostRuntime) -> io::Result<()> {
    printing::each_row(&rt, |call| line(&rt, call))
}
