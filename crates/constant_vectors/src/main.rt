// Prints the constant of every step of a turn, and of numbers outside it, for each key size, in the format of the independent program's
// `constants` (reference/README.md): what the routine adds to a stage of zeros.

#![tactic(auto)]

ghost use Rattle.sizes.specs.Sizes.{Sized};

use printing::Hex;
use std::io;

fn line(rt: &impl Print, t: usize, s: usize) -> io::Result<()>
    requires { Sized t }
{
    let mut k = [0u8; 24];
    constants::add_constant(t, s, &mut k);
    let length = 6 * t;
    println!(rt;
        "constant {length} {s} {}",
        Hex(printing::first(&k, length))
    )
}

// The steps 0 to 6t + 1, and numbers far above.
fn size_lines(rt: &impl Print, t: usize) -> io::Result<()>
    requires { Sized t }
{
    for s in 0..6 * t + 2 {
        line(rt, t, s)?;
    }
    for s in [33, 43, 44, 65, 257, 65537, 4294967295] {
        line(rt, t, s)?;
    }
    Ok(())
}

fn main(rt: HostRuntime) -> io::Result<()> {
    size_lines(&rt, 2)?;
    size_lines(&rt, 3)?;
    size_lines(&rt, 4)
}
