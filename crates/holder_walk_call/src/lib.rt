// A key holder in lent bytes walked to a stage: what the C call of this name does.

#![tactic(auto)]

ghost use Rattle.std.specs.Prelude.{◌≡◌, ◌+◌, ◌≤◌};
ghost use Rattle.holder_walk_call.specs.WalkCall.{way_code, walk_call_code, walk_call_holder};

use holder::Way;
use holder_bytes::{read, write};

// The number that a walk answers with: its steps, and their direction.
fn walk_code(steps: usize, way: Way) -> u32
    requires { steps ≤ 999 }
    ensures { result ≡ way_code way + steps }
{
    match way {
        Way::Forward => 1000 + steps as u32,
        Way::Back => 2000 + steps as u32,
    }
}

// A walk to stage d, the shorter way.
// Kept: the C call's clause has one number for the reason, or for the steps and their direction.
pub fn walk(lent: &mut [u8], d: u32) -> u32
    ensures value { result ≡ walk_call_code lent.old d }
    ensures lent_after { lent.new ≡ walk_call_holder lent.old d }
{
    match holder_walk::walk(read(lent), d as usize) {
        Ok(walked) => {
            write(lent, walked.holder);
            walk_code(walked.steps, walked.way)
        }
        Err(reason) => u32::from(reason),
    }
}
