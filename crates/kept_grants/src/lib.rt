// A grant that a plotter box keeps while others change the roll: issued, then a list of calls on the roll's bytes, then checked.

#![tactic(auto)]

ghost use Rattle.std.specs.Prelude.{◌≡◌};
ghost use Rattle.issue_call.specs.IssueCall.{issue_call_output};
ghost use Rattle.call_claims.specs.CallHistories.{called, bytes_after};
ghost use Rattle.kept_grants.specs.Kept.{change_from, changes_from, Revoked, kept_code, kept_roll};

// One call of the list.
// Kept: a call is a number, and no enum, since `Revoked` says it of every list of numbers, which `change_from` reads as this function does.
#[tactic(auto, unfolding(call_claims::specs::CallHistories::called, crate::specs::Kept::change_from))]
fn call_change(roll: &mut [u8], call: u32)
    ensures { roll.new ≡ called (change_from call) roll.old }
{
    let contractor = call / 12;
    let right = call / 3 % 4;
    match call % 3 {
        0 => capi::gordzila_enter(roll, contractor, right),
        1 => capi::gordzila_change_right(roll, contractor, right),
        _ => capi::gordzila_withdraw(roll, contractor),
    };
}

// The calls of the list, in its order, whatever each answers.
pub fn call_changes(roll: &mut [u8], calls: &[u32])
    ensures { roll.new ≡ bytes_after (changes_from calls.now) roll.old }
{
    for call in calls {
        call_change(roll, *call);
    }
}

// Issues a grant, makes the calls on the roll, and checks the twelve bytes that were written, asked for any size block and any right.
pub fn call_issue_change_check(
    key: &[u8],
    rounds: u32,
    roll: &mut [u8],
    contractor: u32,
    size_block: u32,
    right: u32,
    calls: &[u32],
    asked_block: u32,
    asked_right: u32,
    out: &mut [u8],
) -> u32
    ensures revoked { Revoked key.now rounds roll.old contractor size_block right calls.now out.old result }
    ensures value { result ≡ kept_code key.now rounds roll.old contractor size_block right calls.now
        asked_block asked_right out.old }
    ensures roll_after { roll.new ≡ kept_roll key.now rounds roll.old contractor size_block right calls.now
        out.old }
    ensures out_after { out.new ≡ issue_call_output key.now rounds roll.old contractor size_block right
        out.old }
{
    let number = capi::gordzila_issue(key, rounds, roll, contractor, size_block, right, out);
    // Kept: the C interface: gordzila_issue answers with a number, and `kept_code` is that number where it is no 0.
    if number != 0 {
        return number;
    }
    call_changes(roll, calls);
    capi::gordzila_check(key, rounds, roll, &out[..12], asked_block, asked_right)
}
