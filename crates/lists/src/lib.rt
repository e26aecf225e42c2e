// Preparing a key's subkey list in lent bytes.

#![tactic(auto)]

ghost use Rattle.std.specs.Prelude.{◌≡◌};
ghost use Rattle.refusal.specs.Reasons.{outcome_number};
ghost use Rattle.lists.specs.Lists.{prepare_number, prepare_output};

use key_lists::Direction;
use refusal::{Reason, require};

// Prepares the subkey list for a direction: 12(R + 1) bytes.
#[tactic(auto, unfolding(refusal::specs::Tries::first, refusal::specs::Tries::written, key_lists::specs::KeyLists::prepared))]
pub fn prepare(key: &[u8], rounds: u32, direction: Direction, out: &mut [u8]) -> Result<(), Reason>
    ensures result_value { outcome_number result ≡ prepare_number key.now rounds out.old }
    ensures out_after { out.new ≡ prepare_output direction key.now rounds out.old }
{
    settings::try_settings(key.len(), rounds)?;
    let count = rounds as usize;
    require(12 * (count + 1) <= out.len(), Reason::OutputTooShort)?;
    filling::fill_for(direction, key, count, out);
    Ok(())
}
