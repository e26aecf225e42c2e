// Entering, withdrawing and changing the highest right on a roll, however it is held: what is tried, what becomes of a contractor's entry, and the calls.

#![tactic(auto)]

ghost use Rattle.std.specs.Prelude.{◌≡◌, true, ◌<◌, OnOk, OnErr};
ghost use Rattle.std.specs.Result.{result_unwrap_or};
ghost use Rattle.refusal.specs.Reasons.{outcome_number};
ghost use Rattle.refusal.specs.Tries.{first};
ghost use Rattle.rights.specs.Rights.{is_right};
ghost use Rattle.roll.specs.Roll.{count_of};
ghost use Rattle.roll_changes.specs.Changes.{with_whole, enter_tries, entered_entry, enter_number, entered_roll};
ghost use Rattle.roll_changes.specs.Changes.{withdraw_tries, withdrawn_entry, withdraw_number, withdrawn_roll};
ghost use Rattle.roll_changes.specs.Changes.{change_tries, changed_entry, change_number, changed_roll};

use refusal::{Reason, require};
use rights::is_right;
use roll::{AsRollMut, Entry, Roll, is_contractor, is_in_standing};

#[tactic(auto, unfolding(refusal::specs::Tries::first))]
pub fn try_enter(contractor: u32, right: u32, count: u16) -> Result<(), Reason>
    ensures { outcome_number result ≡ first (enter_tries contractor right count) }
{
    require(is_contractor(contractor), Reason::Contractor)?;
    require(is_right(right), Reason::UnknownRight)?;
    require(!is_in_standing(count), Reason::InStanding)?;
    require(count < 65534, Reason::CountSpent)
}

#[tactic(auto, unfolding(refusal::specs::Tries::first))]
pub fn try_withdraw(contractor: u32, count: u16) -> Result<(), Reason>
    ensures { outcome_number result ≡ first (withdraw_tries contractor count) }
{
    require(is_contractor(contractor), Reason::Contractor)?;
    require(is_in_standing(count), Reason::NotInStanding)
}

// Kept: a local for each test, since the edits `any_figure_is_given` and `change_out_of_standing` are of these lines, which stand once so.
#[tactic(auto, unfolding(refusal::specs::Tries::first))]
pub fn try_change(contractor: u32, right: u32, count: u16) -> Result<(), Reason>
    ensures { outcome_number result ≡ first (change_tries contractor right count) }
{
    require(is_contractor(contractor), Reason::Contractor)?;
    let known = is_right(right);
    require(known, Reason::UnknownRight)?;
    let stands = is_in_standing(count);
    require(stands, Reason::NotInStanding)
}

// What becomes of the entry of a contractor who is entered with a highest right.
pub fn entered_entry(right: u32, entry: Entry) -> Entry
    requires { (is_right right ≡ true) × («entry».count < 65535) }
    ensures { result ≡ entered_entry right «entry» }
{
    Entry {
        count: entry.count + 1,
        figure: right as u8,
    }
}

// Of one who is withdrawn: whoever enters them again gives the right anew.
pub fn withdrawn_entry(entry: Entry) -> Entry
    requires { «entry».count < 65535 }
    ensures { result ≡ withdrawn_entry «entry» }
{
    Entry {
        count: entry.count + 1,
        figure: 1,
    }
}

// Of one whose highest right is changed: the count stays, so that no grant is revoked.
pub fn changed_entry(right: u32, entry: Entry) -> Entry
    requires { is_right right ≡ true }
    ensures { result ≡ changed_entry right «entry» }
{
    Entry {
        figure: right as u8,
        ..entry
    }
}

// Enters a contractor who is not in standing, with a highest right.
#[tactic(auto, unfolding(refusal::specs::Tries::first, refusal::specs::Tries::answered, crate::specs::Changes::entered_roll))]
pub fn enter_on<R: AsRollMut>(roll: &mut R, contractor: u32, right: u32) -> Result<(), Reason>
    ensures result_value { outcome_number result
        ≡ first (with_whole (R.whole roll.old) (enter_tries contractor right (count_of (R.roll roll.old) contractor))) }
    ensures roll_after { OnOk result (R.roll roll.new ≡ entered_roll (R.roll roll.old) contractor right) }
    ensures whole_after { R.whole roll.new ≡ R.whole roll.old }
    ensures kept { OnErr result (roll.new ≡ roll.old) }
{
    require(roll.is_whole(), Reason::InputLength)?;
    let entry = roll.entry(contractor);
    try_enter(contractor, right, entry.count)?;
    roll.set_entry(contractor, entered_entry(right, entry));
    Ok(())
}

// Withdraws a contractor who is in standing.
#[tactic(auto, unfolding(refusal::specs::Tries::first, refusal::specs::Tries::answered, roll::specs::Roll::in_standing, crate::specs::Changes::withdrawn_roll))]
pub fn withdraw_on<R: AsRollMut>(roll: &mut R, contractor: u32) -> Result<(), Reason>
    ensures result_value { outcome_number result
        ≡ first (with_whole (R.whole roll.old) (withdraw_tries contractor (count_of (R.roll roll.old) contractor))) }
    ensures roll_after { OnOk result (R.roll roll.new ≡ withdrawn_roll (R.roll roll.old) contractor) }
    ensures whole_after { R.whole roll.new ≡ R.whole roll.old }
    ensures kept { OnErr result (roll.new ≡ roll.old) }
{
    require(roll.is_whole(), Reason::InputLength)?;
    let entry = roll.entry(contractor);
    try_withdraw(contractor, entry.count)?;
    roll.set_entry(contractor, withdrawn_entry(entry));
    Ok(())
}

// Changes the highest right of a contractor who is in standing.
#[tactic(auto, unfolding(refusal::specs::Tries::first, refusal::specs::Tries::answered, crate::specs::Changes::changed_roll))]
pub fn change_right_on<R: AsRollMut>(
    roll: &mut R,
    contractor: u32,
    right: u32,
) -> Result<(), Reason>
    ensures result_value { outcome_number result
        ≡ first (with_whole (R.whole roll.old) (change_tries contractor right (count_of (R.roll roll.old) contractor))) }
    ensures roll_after { OnOk result (R.roll roll.new ≡ changed_roll (R.roll roll.old) contractor right) }
    ensures whole_after { R.whole roll.new ≡ R.whole roll.old }
    ensures kept { OnErr result (roll.new ≡ roll.old) }
{
    require(roll.is_whole(), Reason::InputLength)?;
    let entry = roll.entry(contractor);
    try_change(contractor, right, entry.count)?;
    roll.set_entry(contractor, changed_entry(right, entry));
    Ok(())
}

// The same on a roll by value.
#[tactic(auto, unfolding(refusal::specs::Tries::first, refusal::specs::Tries::answered, crate::specs::Changes::entered_roll))]
pub fn enter(mut roll: Roll, contractor: u32, right: u32) -> Result<Roll, Reason>
    ensures result_value { outcome_number result ≡ enter_number roll contractor right }
    ensures roll_value { result_unwrap_or result roll ≡ entered_roll roll contractor right }
{
    enter_on(&mut roll, contractor, right)?;
    Ok(roll)
}

#[tactic(auto, unfolding(refusal::specs::Tries::first, refusal::specs::Tries::answered, crate::specs::Changes::withdrawn_roll))]
pub fn withdraw(mut roll: Roll, contractor: u32) -> Result<Roll, Reason>
    ensures result_value { outcome_number result ≡ withdraw_number roll contractor }
    ensures roll_value { result_unwrap_or result roll ≡ withdrawn_roll roll contractor }
{
    withdraw_on(&mut roll, contractor)?;
    Ok(roll)
}

#[tactic(auto, unfolding(refusal::specs::Tries::first, refusal::specs::Tries::answered, crate::specs::Changes::changed_roll))]
pub fn change_right(mut roll: Roll, contractor: u32, right: u32) -> Result<Roll, Reason>
    ensures result_value { outcome_number result ≡ change_number roll contractor right }
    ensures roll_value { result_unwrap_or result roll ≡ changed_roll roll contractor right }
{
    change_right_on(&mut roll, contractor, right)?;
    Ok(roll)
}
