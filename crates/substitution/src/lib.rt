// The substitution layer: the S-box on every byte of a state, by value.

#![tactic(auto)]

ghost use Rattle.std.specs.Prelude.{◌≡◌, get_or};
ghost use Rattle.sbox.specs.Sbox.{sbox};
ghost use Rattle.layers.specs.State.{column};
ghost use Rattle.layers.specs.Layers.{substituted};

use sbox::substitute_byte;

fn substitute_column(a: [u8; 3]) -> [u8; 3]
    ensures { result ≡ column (λ i. sbox (get_or a i 0)) }
{
    [
        substitute_byte(a[0]),
        substitute_byte(a[1]),
        substitute_byte(a[2]),
    ]
}

// The S-box on every byte.
pub fn substitute(a: [[u8; 3]; 4]) -> [[u8; 3]; 4]
    ensures { result ≡ substituted a }
{
    [
        substitute_column(a[0]),
        substitute_column(a[1]),
        substitute_column(a[2]),
        substitute_column(a[3]),
    ]
}
