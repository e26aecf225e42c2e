// A key holder in lent bytes, made and stepped: what the C calls of these names do.

#![tactic(auto)]

ghost use Rattle.std.specs.Prelude.{◌≡◌};
ghost use Rattle.refusal.specs.Reasons.{outcome_number};
ghost use Rattle.holder.specs.declared.Way.TheVariants.{Forward, Back};
ghost use Rattle.holder_calls.specs.HolderCalls.{make_call_number, make_call_output, step_call_number, step_call_holder};

use holder::Way;
use holder_bytes::{HOLDER_BYTES, answer, read, write};
use refusal::{Reason, require};

// A holder of a key at stage 0: 26 bytes.
#[tactic(auto, unfolding(refusal::specs::Tries::first, refusal::specs::Tries::written, crate::specs::HolderCalls::make_call_output))]
pub fn make(key: &[u8], out: &mut [u8]) -> Result<(), Reason>
    ensures value { outcome_number result ≡ make_call_number key.now out.old }
    ensures out_after { out.new ≡ make_call_output key.now out.old }
{
    let made = holder_from_key::make(key)?;
    require(HOLDER_BYTES <= out.len(), Reason::OutputTooShort)?;
    write(out, made);
    Ok(())
}

// One step, the way that is told.
#[tactic(auto, unfolding(refusal::specs::Tries::written, crate::specs::HolderCalls::step_call_holder))]
fn step(way: Way, lent: &mut [u8]) -> Result<(), Reason>
    ensures value { outcome_number result ≡ step_call_number lent.old }
    ensures lent_after { lent.new ≡ step_call_holder way lent.old }
{
    let stepped = holder_steps::step_either(way, read(lent));
    answer(lent, stepped)
}

// A step forward.
// Kept: the C interface has a call for each way, and an edit each is of this and of `back`.
pub fn forward(lent: &mut [u8]) -> Result<(), Reason>
    ensures value { outcome_number result ≡ step_call_number lent.old }
    ensures lent_after { lent.new ≡ step_call_holder Forward lent.old }
{
    step(Way::Forward, lent)
}

// A step back.
pub fn back(lent: &mut [u8]) -> Result<(), Reason>
    ensures value { outcome_number result ≡ step_call_number lent.old }
    ensures lent_after { lent.new ≡ step_call_holder Back lent.old }
{
    step(Way::Back, lent)
}
