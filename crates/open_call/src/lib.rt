// Opening a page, as the C call does it: one number of 64 bits for the answer.

#![tactic(auto)]

ghost use Rattle.std.specs.Prelude.{◌≡◌, ◌≤◌};
ghost use Rattle.std.specs.Result.{result_unwrap_or};
ghost use Rattle.refusal.specs.Reasons.{outcome_number};
ghost use Rattle.opening.specs.Opening.{no_header, open_output, open_scratch};
ghost use Rattle.open_call.specs.OpenCall.{open_code, open_call_code};

use pages::Header;
use refusal::Reason;

// The answer as a number.
// Kept: the C call `gordzila_open_page` gives one number of 64 bits.
#[tactic(auto, using(refusal::proofs::Reasons::reason_positive), unfolding(refusal::specs::Tries::answered, crate::specs::OpenCall::open_code))]
fn code(opened: Result<Header, Reason>) -> u64
    requires { (result_unwrap_or opened no_header).used ≤ 492 }
    ensures { let header = result_unwrap_or opened no_header in result
        ≡ open_code (outcome_number opened) header.size_block header.page_number header.used }
{
    match opened {
        Ok(header) => {
            9223372036854775808
                + (281474976710656 * (header.used as u64)
                    + (4294967296 * (header.page_number as u64) + header.size_block as u64))
        }
        Err(reason) => u32::from(reason) as u64,
    }
}

// Opens a page: the refusal number, or the header's numbers with the top bit set; and the payload's 492 bytes to the output.
#[tactic(auto, using(crate::proofs::Codes::code_of, crate::proofs::Codes::used_fits),
// The words of the clauses.
unfolding(crate::specs::OpenCall::open_call_code, opening::specs::Opening::opened_block,
// And of the header's numbers.
opening::specs::Opening::opened_page_number, opening::specs::Opening::opened_used))]
pub fn open(
    first_key: &[u8],
    second_key: &[u8],
    rounds: u32,
    page: &[u8],
    scratch: &mut [u8],
    out: &mut [u8],
) -> u64
    ensures value { result ≡ open_call_code first_key.now second_key.now rounds page.now scratch.old
        out.old }
    ensures out_after { out.new
        ≡ open_output first_key.now second_key.now rounds page.now scratch.old out.old }
    ensures scratch_after { scratch.new
        ≡ open_scratch first_key.now second_key.now rounds page.now scratch.old out.old }
{
    code(opening::open(first_key, second_key, rounds, page, scratch, out))
}
