// The permutation layer, by value.

#![tactic(auto)]

ghost use Rattle.std.specs.Prelude.{◌≡◌};
ghost use Rattle.layers.specs.Layers.{permuted};

// Row i, column j takes the byte of row i, column (i exclusive-or j).
pub fn permute(a: [[u8; 3]; 4]) -> [[u8; 3]; 4]
    ensures { result ≡ permuted a }
{
    let w = a[0];
    let x = a[1];
    let y = a[2];
    let z = a[3];
    [
        [w[0], x[1], y[2]],
        [x[0], w[1], z[2]],
        [y[0], z[1], w[2]],
        [z[0], y[1], x[2]],
    ]
}
