// A stage straight from the key, and its subkey: what the C calls of these names do.

#![tactic(auto)]

ghost use Rattle.std.specs.Prelude.{◌≡◌};
ghost use Rattle.refusal.specs.Reasons.{outcome_number};
ghost use Rattle.refusal.specs.Tries.{first};
ghost use Rattle.stage_calls.specs.StageCalls.{stage_room_tries, stage_call_number, stage_call_output, subkey_call_output};

use refusal::{Reason, require};

// A key's length and a stage's number, and the room for what is made of the stage: `least` bytes or more.
#[tactic(auto, unfolding(refusal::specs::Tries::first))]
fn try_stage(key: &[u8], n: usize, least: usize, room: usize) -> Result<(), Reason>
    ensures { outcome_number result ≡ first (stage_room_tries least key.now n room) }
{
    holder_from_key::try_straight(key.len(), n)?;
    require(least <= room, Reason::OutputTooShort)
}

// A key's stage n: 24 bytes, with zeros past the key's length.
#[tactic(auto, unfolding(refusal::specs::Tries::first, refusal::specs::Tries::written, crate::specs::StageCalls::stage_call_output))]
pub fn stage(key: &[u8], n: u32, out: &mut [u8]) -> Result<(), Reason>
    ensures value { outcome_number result ≡ stage_call_number 24 key.now n out.old }
    ensures out_after { out.new ≡ stage_call_output key.now n out.old }
{
    try_stage(key, n as usize, 24, out.len())?;
    let bytes = holder_from_key::stage_bytes(key, n as usize);
    blocks::put_bytes(out, 0, &bytes);
    Ok(())
}

// The subkey of a key's stage n: 12 bytes.
// Kept: two calls, for two names in C; what they share is `try_stage`, and what is left is no plainer as one.
#[tactic(auto, using(crate::proofs::Straight::subkey_padded), // zeros past the key are no part of a subkey
unfolding(refusal::specs::Tries::first, refusal::specs::Tries::written, crate::specs::StageCalls::subkey_call_output))]
pub fn subkey(key: &[u8], n: u32, out: &mut [u8]) -> Result<(), Reason>
    ensures value { outcome_number result ≡ stage_call_number 12 key.now n out.old }
    ensures out_after { out.new ≡ subkey_call_output key.now n out.old }
{
    try_stage(key, n as usize, 12, out.len())?;
    let bytes = holder_from_key::stage_bytes(key, n as usize);
    blocks::write_state(out, subkeys::subkey(&bytes));
    Ok(())
}
