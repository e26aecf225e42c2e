// Issuing a grant on a roll's bytes: what the C call of this name does.

#![tactic(auto)]

ghost use Rattle.std.specs.Prelude.{◌≡◌};
ghost use Rattle.refusal.specs.Reasons.{outcome_number};
ghost use Rattle.issue_call.specs.IssueCall.{issue_call_number, issue_call_output};

use refusal::Reason;
use roll_bytes::RollBytes;

// Issues a grant: twelve bytes to the output.
// Kept: a line of its own, as in `check_call` and `queue_call`: each is one call of C, over one generic call.
#[tactic(auto, unfolding(crate::specs::IssueCall::issue_call_output))]
pub fn issue(
    key: &[u8],
    rounds: u32,
    roll: &[u8],
    contractor: u32,
    size_block: u32,
    right: u32,
    out: &mut [u8],
) -> Result<(), Reason>
    ensures value { outcome_number result
        ≡ issue_call_number key.now rounds roll.now contractor size_block right out.old }
    ensures out_after { out.new ≡ issue_call_output key.now rounds roll.now contractor size_block right
        out.old }
{
    let roll = RollBytes { bytes: roll };
    issuing::issue_on(key, rounds, &roll, contractor, size_block, right, out)
}
