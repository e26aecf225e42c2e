// Multiplication of a byte by the constant that the key schedule's matrix needs.

#![tactic(auto)]

ghost use Rattle.std.specs.Prelude.{◌≡◌};
ghost use Rattle.field.specs.Field.{times, cube_root};

// Twice x: a shift, with the modulus taken away where a digit left the byte.
fn twice(x: u8) -> u8
    ensures { result ≡ times 2 x }
{
    (x << 1) ^ ((x >> 7) * 0x4D)
}

// The constant c = 1C times x: c is 16 + 8 + 4.
pub fn times_c(x: u8) -> u8
    ensures { result ≡ times cube_root x }
{
    let x4 = twice(twice(x));
    let x8 = twice(x4);
    let x16 = twice(x8);
    x16 ^ (x8 ^ x4)
}
