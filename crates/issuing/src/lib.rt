// Issuing a grant on a roll, however it is held.

#![tactic(auto)]

ghost use Rattle.std.specs.Prelude.{◌≡◌, ◌++◌, length, drop};
ghost use Rattle.refusal.specs.Reasons.{outcome_number};
ghost use Rattle.refusal.specs.Tries.{first, written};
ghost use Rattle.key_lists.specs.declared.Direction.TheVariants.{Enciphering};
ghost use Rattle.cipher.specs.Cipher.{cipher_block};
ghost use Rattle.grant.specs.Grants.{plain_grant};
ghost use Rattle.issuing.specs.Issuing.{wanted_tries, issue_tries_on, issued_grant, issue_number, issue_output};
ghost use Rattle.issuing.specs.ForProver.{Issuable};

use grant::plain_grant;
use key_lists::Direction;
use refusal::{Reason, require};
use rights::{is_right, within_highest};
use roll::{AsRoll, Entry, Roll};
use size_blocks::is_size_block;

// What is tried after settings and lengths: the room for the grant, the contractor, the right, the size block, the standing, and the right against
// the highest.
#[tactic(auto, unfolding(refusal::specs::Tries::first))]
pub fn try_issue(
    room: usize,
    contractor: u32,
    size_block: u32,
    right: u32,
    entry: Entry,
) -> Result<(), Reason>
    ensures { outcome_number result ≡ first (wanted_tries room contractor size_block right «entry») }
{
    require(12 <= room, Reason::OutputTooShort)?;
    require(roll::is_contractor(contractor), Reason::Contractor)?;
    require(is_right(right), Reason::UnknownRight)?;
    require(is_size_block(size_block), Reason::BlockZero)?;
    require(roll::is_in_standing(entry.count), Reason::NotInStanding)?;
    require(within_highest(right, entry.figure), Reason::AboveHighest)
}

// A grant's twelve bytes, enciphered to the output.
#[tactic(auto, unfolding(cipher::specs::Cipher::cipher_block))]
pub fn write_grant(
    key: &[u8],
    rounds: u32,
    contractor: u32,
    count: u16,
    size_block: u32,
    right: u32,
    out: &mut [u8],
)
    requires { Issuable (length key.now) rounds right (length out.old) }
    ensures { out.new
        ≡ cipher_block Enciphering key.now rounds (plain_grant contractor count size_block right) ++ drop 12 out.old }
{
    let plain = plain_grant(contractor, count, size_block, right);
    blocks::write_state(
        out,
        cipher::state_under(Direction::Enciphering, key, rounds, &plain),
    );
}

// Issues a grant in the contractor's standing on the roll: twelve bytes to the output.
#[tactic(auto, unfolding(refusal::specs::Tries::first, refusal::specs::Tries::written, crate::specs::Issuing::issued_grant))]
pub fn issue_on<R: AsRoll>(
    key: &[u8],
    rounds: u32,
    roll: &R,
    contractor: u32,
    size_block: u32,
    right: u32,
    out: &mut [u8],
) -> Result<(), Reason>
    ensures result_value { outcome_number result
        ≡ first (issue_tries_on (R.whole roll.now) key.now rounds (R.roll roll.now) contractor size_block right out.old) }
    ensures out_after { out.new
        ≡ written (first (issue_tries_on (R.whole roll.now) key.now rounds (R.roll roll.now) contractor size_block right out.old))
        (issued_grant key.now rounds (R.roll roll.now) contractor size_block right) out.old }
{
    settings::try_settings(key.len(), rounds)?;
    require(roll.is_whole(), Reason::InputLength)?;
    let entry = roll.entry(contractor);
    try_issue(out.len(), contractor, size_block, right, entry)?;
    write_grant(key, rounds, contractor, entry.count, size_block, right, out);
    Ok(())
}

// The same on a roll by value.
#[tactic(auto, unfolding(refusal::specs::Tries::first, refusal::specs::Tries::written, crate::specs::Issuing::issue_output))]
pub fn issue(
    key: &[u8],
    rounds: u32,
    roll: Roll,
    contractor: u32,
    size_block: u32,
    right: u32,
    out: &mut [u8],
) -> Result<(), Reason>
    ensures result_value { outcome_number result ≡ issue_number key.now rounds roll contractor size_block right out.old }
    ensures out_after { out.new ≡ issue_output key.now rounds roll contractor size_block right out.old }
{
    issue_on(key, rounds, &roll, contractor, size_block, right, out)
}
