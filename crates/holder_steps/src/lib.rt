// Calls on a holder that step it by one, or ask for the subkey of the stage that it holds.

#![tactic(auto)]

ghost use Rattle.std.specs.Prelude.{◌≡◌};
ghost use Rattle.std.specs.Result.{result_unwrap_or};
ghost use Rattle.refusal.specs.Reasons.{outcome_number};
ghost use Rattle.holder.specs.declared.Way.TheVariants.{Forward, Back};
ghost use Rattle.holder_steps.specs.Steps.{holder_number, step_holder, no_subkey, subkey_held};

use holder::{Holder, Way, is_whole, step};
use refusal::{Reason, require};

// One step, the way that is told.
#[tactic(auto, unfolding(refusal::specs::Tries::first, refusal::specs::Tries::answered, crate::specs::Steps::step_holder))]
pub fn step_either(way: Way, h: Holder) -> Result<Holder, Reason>
    ensures outcome_value { outcome_number result ≡ holder_number h }
    ensures holder_value { result_unwrap_or result h ≡ step_holder way h }
{
    require(is_whole(h), Reason::BrokenHolder)?;
    Ok(step(way, h))
}

// A step forward.
// Kept: the claims name this and `back`, and the edit `forward_steps_back` is of this call.
pub fn forward(h: Holder) -> Result<Holder, Reason>
    ensures outcome_value { outcome_number result ≡ holder_number h }
    ensures holder_value { result_unwrap_or result h ≡ step_holder Forward h }
{
    step_either(Way::Forward, h)
}

// A step back.
pub fn back(h: Holder) -> Result<Holder, Reason>
    ensures outcome_value { outcome_number result ≡ holder_number h }
    ensures holder_value { result_unwrap_or result h ≡ step_holder Back h }
{
    step_either(Way::Back, h)
}

// The subkey of the stage that is held.
#[tactic(auto, unfolding(refusal::specs::Tries::first, refusal::specs::Tries::answered, crate::specs::Steps::subkey_held))]
pub fn subkey(h: Holder) -> Result<[u8; 12], Reason>
    ensures outcome_value { outcome_number result ≡ holder_number h }
    ensures subkey_value { result_unwrap_or result no_subkey ≡ subkey_held h }
{
    let mut out = [0u8; 12];
    require(is_whole(h), Reason::BrokenHolder)?;
    blocks::write_state(&mut out, subkeys::subkey(&h.bytes));
    Ok(out)
}
