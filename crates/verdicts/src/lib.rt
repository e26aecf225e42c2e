// Demand 2 of running code: functions that make the calls on a roll by value and nothing else, and whose contracts say when a grant opens, and
// that what was issued opens, for all that can be handed in.

#![tactic(auto)]

ghost use Rattle.std.specs.Prelude.{◌≡◌};
ghost use Rattle.refusal.specs.Tries.{first, answered};
ghost use Rattle.grant.specs.Grants.{verdict_number, verdict_contractor, verdict_right};
ghost use Rattle.issuing.specs.Issuing.{issue_output};
ghost use Rattle.verdicts.specs.Decisions.{Decides, issued_tries};

use grant::Verdict;
use roll::Roll;

// The verdict on a grant.
pub fn check(
    key: &[u8],
    rounds: u32,
    roll: Roll,
    grant: &[u8],
    size_block: u32,
    right: u32,
) -> Verdict
    ensures { Decides key.now rounds roll grant.now size_block right result }
{
    checking::check(key, rounds, roll, grant, size_block, right)
}

// Issues a grant, and checks the twelve bytes that were written, on the same roll, for the same size block and any right: wherever the issue does
// not refuse, they open for every right that the grant's covers.
pub fn issue_then_check(
    key: &[u8],
    rounds: u32,
    roll: Roll,
    contractor: u32,
    size_block: u32,
    right: u32,
    asked: u32,
    out: &mut [u8],
) -> Verdict
    ensures result_value { verdict_number result ≡ first (issued_tries key.now rounds roll contractor size_block right asked out.old) }
    ensures contractor_value { verdict_contractor result ≡ answered
        (first (issued_tries key.now rounds roll contractor size_block right asked out.old)) contractor 0 }
    ensures right_value { verdict_right result ≡ answered
        (first (issued_tries key.now rounds roll contractor size_block right asked out.old)) asked 0 }
    ensures out_after { out.new ≡ issue_output key.now rounds roll contractor size_block right out.old }
{
    issuing::issue(key, rounds, roll, contractor, size_block, right, out)?;
    checking::check(key, rounds, roll, &out[..12], size_block, asked)
}
