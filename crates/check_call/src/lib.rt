// The plotter's call, as the C call of the check makes it: a grant checked on a roll's bytes, of which it reads the one entry that it needs.

#![tactic(auto)]

ghost use Rattle.std.specs.Prelude.{◌≡◌, ◌≤◌};
ghost use Rattle.grant.specs.Grants.{verdict_contractor};
ghost use Rattle.check_call.specs.CheckCall.{verdict_code, call_code};

use grant::Verdict;
use roll_bytes::RollBytes;

// A verdict as a number.
// Kept: the C interface: `gordzila_check` answers with one number.
fn verdict_code(verdict: Verdict) -> u32
    requires { verdict_contractor verdict ≤ 200 }
    ensures { result ≡ verdict_code verdict }
{
    match verdict {
        Ok(grant) => 1000 * u32::from(grant.right) + grant.contractor,
        Err(reason) => u32::from(reason),
    }
}

// Checks a grant for one size block and one right: the refusal number, or 1,000 times that right plus the contractor.
pub fn check(key: &[u8], rounds: u32, roll: &[u8], grant: &[u8], size_block: u32, right: u32) -> u32
    ensures { result ≡ call_code key.now rounds roll.now grant.now size_block right }
{
    let roll = RollBytes { bytes: roll };
    verdict_code(checking::check_on(key, rounds, &roll, grant, size_block, right))
}
