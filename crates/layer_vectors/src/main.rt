// Prints the S-box and values of the four layers in the format of the independent program's `sbox` and `layers`
// (reference/README.md), so that what it prints can be compared with what that program prints.

#![tactic(auto)]

use printing::{Draws, Hex};
use std::io;

// The S-box of sixteen bytes from `first` on.
fn sbox_line(rt: &impl Print, first: u8) -> io::Result<()> {
    print!(rt; "{:02x}", sbox::substitute_byte(first))?;
    for j in 1..16 {
        print!(rt; " {:02x}", sbox::substitute_byte(first.wrapping_add(j)))?;
    }
    print!(rt; "\n")
}

fn layer_line(rt: &impl Print, name: &str, a: [[u8; 3]; 4], res: [[u8; 3]; 4]) -> io::Result<()> {
    println!(rt;
        "{name} {} {}",
        Hex(a.as_flattened()),
        Hex(res.as_flattened())
    )
}

fn theta_line(rt: &impl Print, a: [[u8; 3]; 4]) -> io::Result<()> {
    layer_line(rt, "theta", a, diffusion::diffuse(a))
}

fn draw_state(draws: &mut Draws) -> [[u8; 3]; 4] {
    [draws.bytes(), draws.bytes(), draws.bytes(), draws.bytes()]
}

// The four lines of a state and a subkey.
fn layer_lines(rt: &impl Print, a: [[u8; 3]; 4], k: [[u8; 3]; 4]) -> io::Result<()> {
    layer_line(rt, "gamma", a, substitution::substitute(a))?;
    layer_line(rt, "pi", a, permutation::permute(a))?;
    theta_line(rt, a)?;
    let sum = key_addition::add_key(k, a);
    print!(rt; "sigma {} ", Hex(a.as_flattened()))?;
    println!(rt; "{} {}", Hex(k.as_flattened()), Hex(sum.as_flattened()))
}

// The diffusion of every state with a single binary digit, place by place: it keeps sums (`layers` `DiffusionIsLinear`), so these 96
// determine it. And that of the state with all digits, where one leaves each byte.
fn theta_of_digits(rt: &impl Print) -> io::Result<()> {
    for digit in [1, 2, 4, 8, 16, 32, 64, 128] {
        for place in 0..12 {
            let mut a = [[0u8; 3]; 4];
            a[place / 3][place % 3] = digit;
            theta_line(rt, a)?;
        }
    }
    theta_line(rt, [[255; 3]; 4])
}

fn main(rt: HostRuntime) -> io::Result<()> {
    for row in 0..16 {
        sbox_line(&rt, 16 * row)?;
    }
    let mut draws = Draws::new();
    for _ in 0..32 {
        let a = draw_state(&mut draws);
        let k = draw_state(&mut draws);
        layer_lines(&rt, a, k)?;
    }
    theta_of_digits(&rt)
}
