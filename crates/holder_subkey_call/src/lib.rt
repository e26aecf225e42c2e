// The subkey of a key holder in lent bytes: what the C call of this name does.

#![tactic(auto)]

ghost use Rattle.std.specs.Prelude.{◌≡◌};
ghost use Rattle.refusal.specs.Reasons.{outcome_number};
ghost use Rattle.holder_subkey_call.specs.SubkeyCall.{held_subkey_number, held_subkey_output};

use holder_bytes::read;
use refusal::{Reason, require};

// The subkey of the stage that is held: 12 bytes.
#[tactic(auto, unfolding(refusal::specs::Tries::first, refusal::specs::Tries::written, crate::specs::SubkeyCall::held_subkey_output))]
pub fn subkey(lent: &[u8], out: &mut [u8]) -> Result<(), Reason>
    ensures value { outcome_number result ≡ held_subkey_number lent.now out.old }
    ensures out_after { out.new ≡ held_subkey_output lent.now out.old }
{
    let bytes = holder_steps::subkey(read(lent))?;
    require(12 <= out.len(), Reason::OutputTooShort)?;
    blocks::put_bytes(out, 0, &bytes);
    Ok(())
}
