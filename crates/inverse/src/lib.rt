// The inverse of the linear step: the column rule with c + 1, then row 1 rotated one column right and row 2 one column left.

#![tactic(auto)]

ghost use Rattle.std.specs.Prelude.{◌≡◌, cond, ◌++◌, ◌+◌, ◌*◌, ◌≤◌, ◌<◌, ltb, drop};
ghost use Rattle.field.specs.Field.{◌⊕◌, times, cube_root};
ghost use Rattle.layers.specs.State.{column};
ghost use Rattle.stages.specs.Columns.{cell, column_rule};
ghost use Rattle.stages.specs.Stages.{inverse_step};
ghost use Rattle.sizes.specs.Sizes.{Sized};

// c + 1 times the sum of a column.
#[tactic(auto, using(crate::proofs::Columns::sum_back))]
fn inverse_column_term(x: u8, y: u8, z: u8) -> u8
    ensures { result ≡ times (cube_root ⊕ 1) (x ⊕ (y ⊕ z)) }
{
    let s = x ^ (y ^ z);
    field::times_c(s) ^ s
}

// Column j of a stage, byte i + 3j for row i, after the column rule with c + 1.
#[tactic(auto, unfolding(stages::specs::Columns::column_rule, stages::specs::Columns::columns))]
fn inverse_column(k: &[u8; 24], j: usize) -> [u8; 3]
    requires { j < 8 }
    ensures { result ≡ column_rule (cube_root ⊕ 1) 1 (column (λ i. cell k.now i j)) }
{
    let x = k[3 * j];
    let y = k[3 * j + 1];
    let z = k[3 * j + 2];
    let m = inverse_column_term(x, y, z);
    [x ^ m, y ^ m, z ^ m]
}

// The same of the column after j, from a stage whose columns up to j may be written already; first is that of the first column as it was.
fn column_after(n: usize, j: usize, k: &[u8; 24], first: [u8; 3]) -> [u8; 3]
    requires { (j < n) × (n ≤ 8) }
    ensures { result ≡ cond (ltb (j + 1) n) (column_rule (cube_root ⊕ 1) 1 (column (λ i. cell k.now i (j + 1)))) first }
{
    if j + 1 < n {
        inverse_column(k, j + 1)
    } else {
        first
    }
}

// The inverse of the linear step of a stage of 2t columns, in place. A column takes row 1 from the one before it and row 2 from the one
// after it, each after the column rule: three columns are kept aside, and the first for the last.
pub fn inverse_step(t: usize, k: &mut [u8; 24])
    requires { Sized t }
    ensures { k.new ≡ inverse_step (2 * t) k.old ++ drop (6 * t) k.old }
{
    let n = 2 * t;
    let first = inverse_column(k, 0);
    let mut before = inverse_column(k, n - 1);
    let mut here = first;
    for j in 0..n {
        let after = column_after(n, j, k, first);
        k[3 * j] = here[0];
        k[3 * j + 1] = before[1];
        k[3 * j + 2] = after[2];
        before = here;
        here = after;
    }
}
