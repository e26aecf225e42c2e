// Prints whole enciphered and deciphered blocks for every key size and round count, and blocks under lists that no key gives, in the
// format of the independent program's `blocks` and `rounds` (reference/README.md).

#![tactic(auto)]

use printing::{Draws, Hex};
use std::io;

// Two blocks from the generator, one enciphered and one deciphered.
fn cipher_lines(rt: &impl Print, draws: &mut Draws, key: &[u8], rounds: u32) -> io::Result<()> {
    let plain = draws.bytes::<12>();
    let block = draws.bytes::<12>();
    let mut out = [0u8; 12];
    let _ = cipher::encipher(key, rounds, &plain, &mut out);
    println!(rt;
        "encrypt {} {rounds} {} {}",
        Hex(key),
        Hex(&plain),
        Hex(&out)
    )?;
    let _ = cipher::decipher(key, rounds, &block, &mut out);
    println!(rt;
        "decrypt {} {rounds} {} {}",
        Hex(key),
        Hex(&block),
        Hex(&out)
    )
}

// A list of R + 1 subkeys and a block from the generator, the block enciphered where the engine takes the list.
fn list_line(rt: &impl Print, draws: &mut Draws, list: &mut [u8], rounds: usize) -> io::Result<()> {
    draws.fill(list);
    let plain = draws.bytes::<12>();
    let mut out = [0u8; 12];
    match engine::run(list, &plain, &mut out) {
        Ok(()) => println!(rt;
            "rounds {rounds} {} {} {}",
            Hex(list),
            Hex(&plain),
            Hex(&out)
        ),
        Err(_) => Ok(()),
    }
}

fn main(rt: HostRuntime) -> io::Result<()> {
    printing::each_key(
        16,
        |draws, key, rounds| cipher_lines(&rt, draws, key, rounds),
    )?;
    let mut draws = Draws::new();
    for rounds in 1..24 {
        for _ in 0..4 {
            let mut list = [0u8; 288];
            list_line(&rt, &mut draws, &mut list[..12 * (rounds + 1)], rounds)?;
        }
    }
    Ok(())
}
