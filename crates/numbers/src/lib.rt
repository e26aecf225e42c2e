// Numbers of two and four bytes, big end first, read from bytes and written as bytes.

#![tactic(auto)]

ghost use Rattle.std.specs.Prelude.{◌≡◌};
ghost use Rattle.numbers.specs.Numbers.{two_from, four_from, two_bytes, four_bytes};

pub fn two_from(a: u8, b: u8) -> u16
    ensures { result ≡ two_from a b }
{
    u16::from_be_bytes([a, b])
}

pub fn four_from(a: u8, b: u8, c: u8, d: u8) -> u32
    ensures { result ≡ four_from a b c d }
{
    u32::from_be_bytes([a, b, c, d])
}

// The two bytes of a number; of a greater one, its last two.
pub fn two_bytes(n: u32) -> [u8; 2]
    ensures { result ≡ two_bytes n }
{
    let [_, _, high, low] = n.to_be_bytes();
    [high, low]
}

pub fn four_bytes(n: u32) -> [u8; 4]
    ensures { result ≡ four_bytes n }
{
    n.to_be_bytes()
}
