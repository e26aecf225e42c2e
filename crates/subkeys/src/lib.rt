// A stage's subkey. A stage is kept in 24 bytes.

#![tactic(auto)]

ghost use Rattle.std.specs.Prelude.{◌≡◌, ◌<◌};
ghost use Rattle.layers.specs.State.{column};
ghost use Rattle.stages.specs.Columns.{cell};
ghost use Rattle.stages.specs.Stages.{subkey_byte, subkey_of};

// Column j of a subkey: the stage's, byte i + 3j for row i, with the S-box on row 0.
fn subkey_column(k: &[u8; 24], j: usize) -> [u8; 3]
    requires { j < 4 }
    ensures { result ≡ column (λ i. subkey_byte i (cell k.now 0 j) (cell k.now 1 j) (cell k.now 2 j)) }
{
    [sbox::substitute_byte(k[3 * j]), k[3 * j + 1], k[3 * j + 2]]
}

// A stage's subkey: its first four columns.
// Kept: the columns are named one by one, since a closure given to `array::from_fn` would need clauses of its own.
pub fn subkey(k: &[u8; 24]) -> [[u8; 3]; 4]
    ensures { result ≡ subkey_of k.now }
{
    [
        subkey_column(k, 0),
        subkey_column(k, 1),
        subkey_column(k, 2),
        subkey_column(k, 3),
    ]
}
