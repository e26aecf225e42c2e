// The key addition: a subkey added to a state, by value.

#![tactic(auto)]

ghost use Rattle.std.specs.Prelude.{◌≡◌, get_or};
ghost use Rattle.std.specs.Int.Bits.{bit_xor};
ghost use Rattle.layers.specs.State.{column};
ghost use Rattle.layers.specs.Layers.{added};

fn add_column(k: [u8; 3], a: [u8; 3]) -> [u8; 3]
    ensures { result ≡ column (λ i. bit_xor (get_or a i 0) (get_or k i 0)) }
{
    [a[0] ^ k[0], a[1] ^ k[1], a[2] ^ k[2]]
}

// The subkey k added byte by byte.
pub fn add_key(k: [[u8; 3]; 4], a: [[u8; 3]; 4]) -> [[u8; 3]; 4]
    ensures { result ≡ added k a }
{
    [
        add_column(k[0], a[0]),
        add_column(k[1], a[1]),
        add_column(k[2], a[2]),
        add_column(k[3], a[3]),
    ]
}
