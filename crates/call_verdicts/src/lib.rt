// Demand 2 of running C calls, on a roll's bytes: functions that make the calls and nothing else, and whose contracts say when a grant opens,
// and that what was issued opens, for all that can be handed in.

#![tactic(auto)]

ghost use Rattle.std.specs.Prelude.{◌≡◌};
ghost use Rattle.issue_call.specs.IssueCall.{issue_call_output};
ghost use Rattle.call_verdicts.specs.CallDecisions.{CallDecides, issued_code};

// The answer of the plotter's call.
pub fn call_check(
    key: &[u8],
    rounds: u32,
    roll: &[u8],
    grant: &[u8],
    size_block: u32,
    right: u32,
) -> u32
    ensures { CallDecides key.now rounds roll.now grant.now size_block right result }
{
    capi::gordzila_check(key, rounds, roll, grant, size_block, right)
}

// Issues a grant, and checks the twelve bytes that were written, for any right: the number of the refusal to issue, or what the check answers.
pub fn call_issue_then_check(
    key: &[u8],
    rounds: u32,
    roll: &[u8],
    contractor: u32,
    size_block: u32,
    right: u32,
    asked: u32,
    out: &mut [u8],
) -> u32
    ensures value { result ≡ issued_code key.now rounds roll.now contractor size_block right asked out.old }
    ensures out_after { out.new ≡ issue_call_output key.now rounds roll.now contractor size_block right
        out.old }
{
    let number = capi::gordzila_issue(key, rounds, roll, contractor, size_block, right, out);
    // Kept: the C interface: gordzila_issue answers with a number, and `issued_code` is that number where it is no 0.
    if number != 0 {
        return number;
    }
    capi::gordzila_check(key, rounds, roll, &out[..12], size_block, asked)
}
