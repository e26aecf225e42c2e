// A stage after another. A stage of 2t columns is kept in 24 bytes: `stage_of_key` puts zeros past it, and the steps
// leave what stands there.

#![tactic(auto)]

ghost use Rattle.std.specs.Prelude.{◌≡◌, ◌++◌, ◌*◌, ◌≤◌, length, drop};
ghost use Rattle.stages.specs.Columns.{padded};
ghost use Rattle.stages.specs.Stages.{stage_after};
ghost use Rattle.sizes.specs.Sizes.{Sized};

// The stage after step s, in the place of the stage before it.
pub fn next_stage(t: usize, s: usize, k: &mut [u8; 24])
    requires { Sized t }
    ensures { k.new ≡ stage_after t s k.old ++ drop (6 * t) k.old }
{
    constants::add_constant(t, s, k);
    linear::linear_step(t, k);
}

// A key's bytes as stage 0: zeros past them.
pub fn stage_of_key(key: &[u8]) -> [u8; 24]
    requires { length key.now ≤ 24 }
    ensures { result ≡ padded key.now }
{
    let mut stage = [0u8; 24];
    stage[..key.len()].copy_from_slice(key);
    stage
}
