// Runs lists of 200 calls on key holders, drawn from the generator, and prints what each call answered and the holder after the list, in
// the format of the independent program's `routes` (reference/README.md).

#![tactic(auto)]

use holder::Holder;
use printing::{Draws, Hex};
use refusal::Reason;
use std::io;

// A call from two drawn bytes.
fn draw_call(draws: &mut Draws) -> u8 {
    let kind = draws.byte() % 8;
    let steps = draws.byte() % 32;
    match kind {
        0..2 => route_run::FORWARD,
        2..4 => route_run::BACK,
        4 => route_run::SUBKEY,
        _ => steps,
    }
}

// A line of the log: a call and its row.
fn line(rt: &impl Print, call: u8, row: &[u8; 41]) -> io::Result<()> {
    let number = row[0];
    match call {
        route_run::FORWARD => print!(rt; "forward {number}")?,
        route_run::BACK => print!(rt; "back {number}")?,
        route_run::SUBKEY => print!(rt; "subkey {number} {}", Hex(&row[5..17]))?,
        steps => {
            let way = if row[2] == 0 { "forward" } else { "back" };
            print!(rt; "walk {steps} {number} {} {way}", row[1])?;
        }
    }
    println!(rt; " {}", row[4])
}

fn holder_line(rt: &impl Print, h: Holder) -> io::Result<()> {
    println!(rt; "{} {} {}", h.length, h.number, Hex(&h.bytes))
}

// The end of a route: the holder, and the stage straight from the key. No route here is refused.
fn ending(rt: &impl Print, end: Result<Holder, Reason>, key: &[u8]) -> io::Result<()> {
    let h = end.unwrap_or_default();
    print!(rt; "holder ")?;
    holder_line(rt, h)?;
    print!(rt; "straight ")?;
    match holder_from_key::straight(key, h.number) {
        Ok(given) => {
            print!(rt; "0 ")?;
            holder_line(rt, given)
        }
        Err(reason) => println!(rt; "{}", u32::from(reason)),
    }
}

// A key and 200 calls from the generator.
fn route(rt: &impl Print, draws: &mut Draws, key: &mut [u8]) -> io::Result<()> {
    let mut calls = [0u8; 200];
    let mut log = [0u8; 8200];
    draws.fill(key);
    for call in &mut calls {
        *call = draw_call(draws);
    }
    println!(rt; "route {}", Hex(key))?;
    let end = route_run::run(key, &calls, &mut log);
    let (rows, _) = log.as_chunks::<41>();
    for (call, row) in calls.iter().zip(rows) {
        line(rt, *call, row)?;
    }
    ending(rt, end, key)
}

// Four routes of keys of each length.
fn main(rt: HostRuntime) -> io::Result<()> {
    let mut draws = Draws::new();
    for length in [12, 18, 24] {
        for _ in 0..4 {
            let mut key = [0u8; 24];
            route(&rt, &mut draws, printing::first_mut(&mut key, length))?;
        }
    }
    Ok(())
}
