// A queue of grants checked on a roll's bytes, as the C call makes it: the entries that it needs are read where they lie.

#![tactic(auto)]

ghost use Rattle.std.specs.Prelude.{◌≡◌};
ghost use Rattle.refusal.specs.Reasons.{outcome_number};
ghost use Rattle.queue_call.specs.QueueCall.{call_queue_number, call_queue_output};

use refusal::Reason;
use roll_bytes::RollBytes;

// Checks a queue of grants for one size block and one right: a byte for each grant, 0 if it opens, else its refusal's number.
#[tactic(auto, unfolding(crate::specs::QueueCall::call_queue_output))]
pub fn check(
    key: &[u8],
    rounds: u32,
    roll: &[u8],
    grants: &[u8],
    size_block: u32,
    right: u32,
    answers: &mut [u8],
) -> Result<(), Reason>
    ensures value { outcome_number result
        ≡ call_queue_number key.now rounds roll.now grants.now size_block right answers.old }
    ensures answers_after { answers.new ≡ call_queue_output key.now rounds roll.now grants.now size_block right
        answers.old }
{
    let roll = RollBytes { bytes: roll };
    queue::check_on(key, rounds, &roll, grants, size_block, right, answers)
}
