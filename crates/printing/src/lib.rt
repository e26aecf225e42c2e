// What the test programs share: pseudo-random bytes by the rule of reference/README.md, printing in its format, and rows of numbers read
// from standard input.

#![tactic(auto)]

use std::fmt::{self, Display, Formatter, Write};
use std::io::{self, Read};

// The generator, at its latest number.
#[derive(Drop)]
pub struct Draws {
    x: u64,
}

impl Draws {
    pub fn new() -> Draws {
        Draws { x: 1 }
    }

    pub fn byte(&mut self) -> u8 {
        self.x = ((self.x % 2147483648) * 1103515245 + 12345) % 2147483648;
        (self.x / 65536 % 256) as u8
    }

    pub fn fill(&mut self, out: &mut [u8]) {
        for b in out {
            *b = self.byte();
        }
    }

    pub fn bytes<const N: usize>(&mut self) -> [u8; N] {
        let mut out = [0u8; N];
        self.fill(&mut out);
        out
    }
}

// So many keys from the generator for each key size and each of its round counts, from its start on; a key's line may draw on.
pub fn each_key<F: Fn(&mut Draws, &[u8], u32) -> io::Result<()>>(
    keys: usize,
    line: F,
) -> io::Result<()>
    requires { F.IsAlwaysCallable line }
{
    let mut draws = Draws::new();
    for (length, least, most) in [(12, 10, 11), (18, 14, 17), (24, 18, 23)] {
        for rounds in least..=most {
            for _ in 0..keys {
                let mut bytes = [0u8; 24];
                let key = first_mut(&mut bytes, length);
                draws.fill(key);
                line(&mut draws, key, rounds)?;
            }
        }
    }
    Ok(())
}

// Bytes as lowercase hexadecimal digits, two for each.
#[derive(Clone, Copy)]
pub struct Hex<'a>(pub &'a [u8]);

impl Display for Hex<'_> {
    fn fmt<W: Write>(&self, f: &mut Formatter<W>) -> fmt::Result {
        for b in self.0 {
            write!(f, "{b:02x}")?;
        }
        Ok(())
    }
}

// What a call answered: 0 and the numbers of what it gave, or the number of its reason for refusing and as many zeros.
pub fn answer<R: Into<u32>, const N: usize>(
    rt: &impl Print,
    answered: Result<[u32; N], R>,
) -> io::Result<()> {
    let (reason, given) = match answered {
        Ok(given) => (0, given),
        Err(reason) => (reason.into(), [0; N]),
    };
    print!(rt; " {reason}")?;
    for n in given {
        print!(rt; " {n}")?;
    }
    Ok(())
}

// The next byte of the input, or 0 where it has ended.
fn next_byte(input: &mut impl Read) -> io::Result<u8> {
    input.bytes().next().unwrap_or(Ok(0))
}

// The next number of the input: its digits, up to the byte after them. It is below 2^64 - 6.
pub fn read(rt: &impl Input) -> io::Result<u64> {
    let mut input = rt.reader();
    let mut n: u64 = 0;
    for _ in 0..21 {
        let b = next_byte(&mut input)?;
        if !b.is_ascii_digit() {
            return Ok(n);
        }
        n = n % 1844674407370955161 * 10 + (b - b'0') as u64;
    }
    Ok(n)
}

// The rows of the input: how many there are, and then for each the number of a call, which its line goes on to read.
pub fn each_row<F: Fn(u64) -> io::Result<()>>(rt: &impl Input, line: F) -> io::Result<()>
    requires { F.IsAlwaysCallable line }
{
    let rows = read(rt)?;
    for _ in 0..rows {
        line(read(rt)?)?;
    }
    Ok(())
}

// The next number of the input, printed: as a length, and as a number of 32 bits.
pub fn echo(rt: &(impl Print + Input)) -> io::Result<usize> {
    let n = read(rt)?;
    print!(rt; " {n}")?;
    Ok(n as usize)
}

pub fn echo_u32(rt: &(impl Print + Input)) -> io::Result<u32> {
    let n = echo(rt)?;
    Ok((n % 4294967296) as u32)
}

// Every byte of a slice from an index on is still the mark that was put there.
// Kept: `byte_slices::zeros_from` says so of zeros alone, for proved callers, and this crate rests on no other.
pub fn all_marks(bytes: &[u8], from: usize, mark: u8) -> bool {
    bytes.iter().skip(from).all(|b| *b == mark)
}

// The end of a line: whether every byte from an index on was left alone.
pub fn kept(rt: &impl Print, bytes: &[u8], from: usize, mark: u8) -> io::Result<()> {
    let left = if all_marks(bytes, from, mark) {
        "kept"
    } else {
        "changed"
    };
    println!(rt; " {left}")
}

// The first n bytes of a slice, or all of it where it has fewer.
pub fn first(s: &[u8], n: usize) -> &[u8] {
    &s[..n.min(s.len())]
}

// Kept: beside `first`, as std has get_mut beside get; no one function lends both to be read and to be written.
pub fn first_mut(s: &mut [u8], n: usize) -> &mut [u8] {
    let n = n.min(s.len());
    &mut s[..n]
}
