// The empty roll, and entering, withdrawing and changing the highest right on a roll's bytes: what the C calls of these names do.
// Kept: not `roll_changes::enter_on` and its like: over a struct of lent bytes the proof of what was written did not close.

#![tactic(auto)]

ghost use Rattle.std.specs.Prelude.{◌≡◌};
ghost use Rattle.refusal.specs.Reasons.{outcome_number};
ghost use Rattle.roll_calls.specs.RollCalls.{empty_call_number, empty_call_output, enter_call_number, enter_call_roll};
ghost use Rattle.roll_calls.specs.RollCalls.{withdraw_call_number, withdraw_call_roll, change_call_number, change_call_roll};

use refusal::{Reason, require};
use roll::AsRoll;
use roll_bytes::{ROLL_BYTES, RollBytes, try_roll, write_empty, write_entry};
use roll_changes::{
    changed_entry, entered_entry, try_change, try_enter, try_withdraw, withdrawn_entry,
};

// Writes the bytes of a roll on which nobody was ever entered.
#[tactic(auto, using(crate::proofs::Written::empty_length), // the bytes of an empty roll are as many as a roll's
unfolding(refusal::specs::Tries::first, refusal::specs::Tries::written, crate::specs::RollCalls::empty_call_output))]
pub fn empty_roll(out: &mut [u8]) -> Result<(), Reason>
    ensures value { outcome_number result ≡ empty_call_number out.old }
    ensures out_after { out.new ≡ empty_call_output out.old }
{
    require(ROLL_BYTES <= out.len(), Reason::OutputTooShort)?;
    write_empty(out);
    Ok(())
}

// Enters a contractor with a highest right.
#[tactic(auto, unfolding(refusal::specs::Tries::first, refusal::specs::Tries::written, refusal::specs::Tries::answered, // what tries give
roll_changes::specs::Changes::entered_roll, crate::specs::RollCalls::enter_call_roll))]
pub fn enter(roll: &mut [u8], contractor: u32, right: u32) -> Result<(), Reason>
    ensures value { outcome_number result ≡ enter_call_number roll.old contractor right }
    ensures roll_after { roll.new ≡ enter_call_roll roll.old contractor right }
{
    try_roll(roll.len())?;
    let entry = RollBytes { bytes: roll }.entry(contractor);
    try_enter(contractor, right, entry.count)?;
    write_entry(roll, contractor, entered_entry(right, entry));
    Ok(())
}

// Withdraws a contractor.
#[tactic(auto, unfolding(refusal::specs::Tries::first, refusal::specs::Tries::written, refusal::specs::Tries::answered, // what tries give
roll::specs::Roll::in_standing, roll_changes::specs::Changes::withdrawn_roll, crate::specs::RollCalls::withdraw_call_roll))]
pub fn withdraw(roll: &mut [u8], contractor: u32) -> Result<(), Reason>
    ensures value { outcome_number result ≡ withdraw_call_number roll.old contractor }
    ensures roll_after { roll.new ≡ withdraw_call_roll roll.old contractor }
{
    try_roll(roll.len())?;
    let entry = RollBytes { bytes: roll }.entry(contractor);
    try_withdraw(contractor, entry.count)?;
    write_entry(roll, contractor, withdrawn_entry(entry));
    Ok(())
}

// Changes the highest right of a contractor.
#[tactic(auto, unfolding(refusal::specs::Tries::first, refusal::specs::Tries::written, refusal::specs::Tries::answered, // what tries give
roll_changes::specs::Changes::changed_roll, crate::specs::RollCalls::change_call_roll))]
pub fn change_right(roll: &mut [u8], contractor: u32, right: u32) -> Result<(), Reason>
    ensures value { outcome_number result ≡ change_call_number roll.old contractor right }
    ensures roll_after { roll.new ≡ change_call_roll roll.old contractor right }
{
    try_roll(roll.len())?;
    let entry = RollBytes { bytes: roll }.entry(contractor);
    try_change(contractor, right, entry.count)?;
    write_entry(roll, contractor, changed_entry(right, entry));
    Ok(())
}
