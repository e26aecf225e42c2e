// The linear step of a stage of 2t columns, in place. A stage is kept in 24 bytes, and what stands past it stays.

#![tactic(auto)]

ghost use Rattle.std.specs.Prelude.{◌≡◌, cond, ◌++◌, ◌+◌, ◌*◌, ◌≤◌, ◌<◌, ltb, drop};
ghost use Rattle.field.specs.Field.{◌⊕◌, times, cube_root};
ghost use Rattle.sizes.specs.Sizes.{Sized};
ghost use Rattle.stages.specs.Columns.{cell};
ghost use Rattle.stages.specs.Stages.{linear_step};

// What the column rule adds to each byte of a column: c times the sum of the column.
fn column_term(x: u8, y: u8, z: u8) -> u8
    ensures { result ≡ times cube_root (x ⊕ (y ⊕ z)) }
{
    field::times_c(x ^ (y ^ z))
}

// Row 1 of the column after j, from a stage whose columns before j are written already; first is row 1 of the first column as it was.
fn row_one_after(n: usize, j: usize, k: &[u8; 24], first: u8) -> u8
    requires { (j < n) × (n ≤ 8) }
    ensures { result ≡ cond (ltb (j + 1) n) (cell k.now 1 (j + 1)) first }
{
    if j + 1 < n { k[3 * j + 4] } else { first }
}

// The linear step of a stage of 2t columns, in place: what is read after it was written is kept aside.
pub fn linear_step(t: usize, k: &mut [u8; 24])
    requires { Sized t }
    ensures { k.new ≡ linear_step (2 * t) k.old ++ drop (6 * t) k.old }
{
    let n = 2 * t;
    let first = k[1];
    let mut before = k[6 * t - 1];
    for j in 0..n {
        let x = k[3 * j];
        let y = row_one_after(n, j, k, first);
        let z = before;
        let m = column_term(x, y, z);
        before = k[3 * j + 2];
        k[3 * j] = x ^ m;
        k[3 * j + 1] = y ^ m;
        k[3 * j + 2] = z ^ m;
    }
}
