// Opening a page: what is tried before any work, the check, the unused bytes, and only then the payload to the output.

#![tactic(auto)]

ghost use Rattle.std.specs.Prelude.{◌≡◌, length};
ghost use Rattle.std.specs.Result.{result_unwrap_or};
ghost use Rattle.refusal.specs.Reasons.{outcome_number};
ghost use Rattle.refusal.specs.Tries.{first, written};
ghost use Rattle.pages.specs.Pages.{cleared};
ghost use Rattle.opening.specs.Opening.{open_input_tries, content_tries, open_number, opened_payload, open_output, open_scratch};
ghost use Rattle.opening.specs.Opening.{no_header, opened_block, opened_page_number, opened_used};
ghost use Rattle.opening.specs.ForProver.{Openable};

use pages::Header;
use refusal::{Reason, require};

// The check, then the unused bytes, then the payload to the output. Lists sit in the scratch.
#[tactic(auto, using(pages::proofs::Lengths::length_payload),
// The words of the clauses.
unfolding(refusal::specs::Tries::first, refusal::specs::Tries::written, crate::specs::Opening::opened_payload))]
fn open_content(
    first_key: &[u8],
    second_key: &[u8],
    rounds: u32,
    page: &[u8],
    scratch: &mut [u8],
    out: &mut [u8],
) -> Result<(), Reason>
    requires { Openable (length first_key.now) (length second_key.now) rounds page.now (length scratch.old) (length out.old) }
    ensures result_value { outcome_number result ≡ first (content_tries first_key.now second_key.now rounds page.now) }
    ensures out_after { out.new
        ≡ written (first (content_tries first_key.now second_key.now rounds page.now))
        (opened_payload first_key.now rounds page.now) out.old }
    ensures scratch_len_unchanged { length scratch.new ≡ length scratch.old }
{
    let agrees = page_contents::check_agrees(second_key, rounds, page, scratch);
    require(agrees, Reason::CheckDiffers)?;
    let zero = page_contents::open_payload(first_key, rounds, page, scratch, out);
    require(zero, Reason::NotAPage)
}

// The same, and the scratch cleared, whatever was found.
#[tactic(auto, unfolding(pages::specs::Pages::cleared))]
fn open_in(
    first_key: &[u8],
    second_key: &[u8],
    rounds: u32,
    page: &[u8],
    scratch: &mut [u8],
    out: &mut [u8],
) -> Result<(), Reason>
    requires { Openable (length first_key.now) (length second_key.now) rounds page.now (length scratch.old) (length out.old) }
    ensures result_value { outcome_number result ≡ first (content_tries first_key.now second_key.now rounds page.now) }
    ensures out_after { out.new
        ≡ written (first (content_tries first_key.now second_key.now rounds page.now))
        (opened_payload first_key.now rounds page.now) out.old }
    ensures scratch_after { scratch.new ≡ cleared }
{
    let found = open_content(first_key, second_key, rounds, page, scratch, out);
    byte_slices::clear(scratch);
    found
}

// The settings, the room, and the page's form.
#[tactic(auto, using(crate::proofs::Tried::pair_refused), unfolding(refusal::specs::Tries::first))]
fn try_open(
    first_key: &[u8],
    second_key: &[u8],
    rounds: u32,
    page: &[u8],
    scratch: &[u8],
    out: &[u8],
) -> Result<(), Reason>
    ensures { outcome_number result
        ≡ first (open_input_tries first_key.now second_key.now rounds page.now scratch.now
        out.now) }
{
    key_pairs::try_pair(first_key, second_key, rounds)?;
    let room = 576 <= scratch.len() && 492 <= out.len();
    require(room, Reason::OutputTooShort)?;
    require(pages::is_page(page), Reason::NotAPage)
}

// Opens a page: the payload's 492 bytes to the output. A page that opens is answered with its header's numbers.
#[tactic(auto,
// What was tried, and the scratch's length.
using(crate::proofs::Tried::openable, crate::proofs::Tried::input_refused, crate::proofs::Tried::input_passed, pages::proofs::Lengths::length_cleared),
// The words of the clauses.
unfolding(refusal::specs::Tries::first, refusal::specs::Tries::written, refusal::specs::Tries::answered,
// Those of this crate.
crate::specs::Opening::open_output, crate::specs::Opening::open_scratch, crate::specs::Opening::opened_block,
// And of the header's numbers.
crate::specs::Opening::opened_page_number, crate::specs::Opening::opened_used))]
pub fn open(
    first_key: &[u8],
    second_key: &[u8],
    rounds: u32,
    page: &[u8],
    scratch: &mut [u8],
    out: &mut [u8],
) -> Result<Header, Reason>
    ensures outcome_value { outcome_number result
        ≡ open_number first_key.now second_key.now rounds page.now scratch.old out.old }
    ensures size_block_value { (result_unwrap_or result no_header).size_block
        ≡ opened_block first_key.now second_key.now rounds page.now scratch.old out.old }
    ensures page_number_value { (result_unwrap_or result no_header).page_number
        ≡ opened_page_number first_key.now second_key.now rounds page.now scratch.old out.old }
    ensures used_value { (result_unwrap_or result no_header).used
        ≡ opened_used first_key.now second_key.now rounds page.now scratch.old out.old }
    ensures out_after { out.new
        ≡ open_output first_key.now second_key.now rounds page.now scratch.old out.old }
    ensures scratch_after { scratch.new
        ≡ open_scratch first_key.now second_key.now rounds page.now scratch.old out.old }
{
    try_open(first_key, second_key, rounds, page, scratch, out)?;
    open_in(
        first_key,
        second_key,
        rounds,
        page,
        &mut scratch[..576],
        out,
    )?;
    Ok(pages::header_in(page))
}
