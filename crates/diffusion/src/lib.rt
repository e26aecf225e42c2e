// The diffusion layer: each column of a state multiplied by the matrix, by value. The work is done a row of four columns at a time.

#![tactic(auto)]

ghost use Rattle.std.specs.Prelude.{◌≡◌, [], ◌∷◌};
ghost use Rattle.numbers.specs.Numbers.{four_bytes};
ghost use Rattle.layers.specs.Layers.{diffused};
ghost use Rattle.diffusion.specs.Rows.{from_rows, diffused_words};

use numbers::{four_bytes, four_from};

// A row as a word, from its four columns: the word that has these four bytes, that of column 0 the highest.
#[tactic(auto, using(numbers::proofs::Laws::bytes_again))]
fn row_word(c0: u8, c1: u8, c2: u8, c3: u8) -> u32
    ensures { four_bytes result ≡ c0 ∷ c1 ∷ c2 ∷ c3 ∷ [] }
{
    four_from(c0, c1, c2, c3)
}

// The state with these rows.
fn from_rows(rows: [u32; 3]) -> [[u8; 3]; 4]
    ensures { result ≡ from_rows rows }
{
    let x = four_bytes(rows[0]);
    let y = four_bytes(rows[1]);
    let z = four_bytes(rows[2]);
    [
        [x[0], y[0], z[0]],
        [x[1], y[1], z[1]],
        [x[2], y[2], z[2]],
        [x[3], y[3], z[3]],
    ]
}

// The matrix times each of the four columns that stand side by side in the rows x, y and z: each row that comes out is the row itself plus 2, 4 or
// 6 times the sum of the rows.
fn diffuse_words(x: u32, y: u32, z: u32) -> [u32; 3]
    ensures { result ≡ diffused_words x y z }
{
    let s2 = words::double_bytes(x ^ y ^ z);
    let s4 = words::double_bytes(s2);
    let s6 = s2 ^ s4;
    [x ^ s2, y ^ s4, z ^ s6]
}

// Each column multiplied by the diffusion matrix.
pub fn diffuse(a: [[u8; 3]; 4]) -> [[u8; 3]; 4]
    ensures { result ≡ diffused a }
{
    let c0 = a[0];
    let c1 = a[1];
    let c2 = a[2];
    let c3 = a[3];
    let x = row_word(c0[0], c1[0], c2[0], c3[0]);
    let y = row_word(c0[1], c1[1], c2[1], c3[1]);
    let z = row_word(c0[2], c1[2], c2[2], c3[2]);
    from_rows(diffuse_words(x, y, z))
}
