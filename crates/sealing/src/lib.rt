// Sealing a page: what is tried, and the page made in the output step by step.

#![tactic(auto)]

ghost use Rattle.std.specs.Prelude.{◌≡◌, length};
ghost use Rattle.refusal.specs.Reasons.{outcome_number};
ghost use Rattle.refusal.specs.Tries.{first};
ghost use Rattle.pages.specs.Pages.{cleared};
ghost use Rattle.sealing.specs.Sealing.{seal_tries, seal_number, sealed, seal_output, seal_scratch};
ghost use Rattle.sealing.specs.ForProver.{Sealable};

use refusal::{Reason, require};

// The page made in the output, over lists in the scratch, which is cleared.
fn seal_in(
    first_key: &[u8],
    second_key: &[u8],
    rounds: u32,
    size_block: u32,
    page_number: u16,
    payload: &[u8],
    scratch: &mut [u8],
    out: &mut [u8],
)
    requires { Sealable (length first_key.now) (length second_key.now) rounds (length payload.now) (length scratch.old)
        (length out.old) }
    ensures out_after { out.new
        ≡ sealed first_key.now second_key.now rounds size_block page_number payload.now }
    ensures scratch_after { scratch.new ≡ cleared }
{
    page_steps::lay_out(size_block, page_number, payload, out);
    page_steps::chain_payload(first_key, rounds, scratch, out);
    page_steps::put_check(second_key, rounds, scratch, out);
    byte_slices::clear(scratch);
}

// The settings, the room, the size block, and the payload.
#[tactic(auto, using(crate::proofs::Tried::pair_refused), unfolding(refusal::specs::Tries::first))]
fn try_seal(
    first_key: &[u8],
    second_key: &[u8],
    rounds: u32,
    size_block: u32,
    payload: &[u8],
    scratch: &[u8],
    out: &[u8],
) -> Result<(), Reason>
    ensures { outcome_number result
        ≡ first (seal_tries first_key.now second_key.now rounds size_block payload.now
        scratch.now out.now) }
{
    key_pairs::try_pair(first_key, second_key, rounds)?;
    let room = 576 <= scratch.len() && 512 <= out.len();
    require(room, Reason::OutputTooShort)?;
    let some = size_blocks::is_size_block(size_block);
    require(some, Reason::BlockZero)?;
    require(payload.len() <= 492, Reason::PayloadTooLong)
}

// Seals a page: 512 bytes to the output.
#[tactic(auto,
// The lengths, and what was tried.
using(pages::proofs::Lengths::length_cleared, crate::proofs::Tried::length_sealed, crate::proofs::Tried::sealable),
// The words of the clauses.
unfolding(refusal::specs::Tries::first, refusal::specs::Tries::written, crate::specs::Sealing::seal_output, crate::specs::Sealing::seal_scratch))]
pub fn seal(
    first_key: &[u8],
    second_key: &[u8],
    rounds: u32,
    size_block: u32,
    page_number: u16,
    payload: &[u8],
    scratch: &mut [u8],
    out: &mut [u8],
) -> Result<(), Reason>
    ensures result_value { outcome_number result
        ≡ seal_number first_key.now second_key.now rounds size_block payload.now
        scratch.old out.old }
    ensures out_after { out.new
        ≡ seal_output first_key.now second_key.now rounds size_block page_number payload.now
        scratch.old out.old }
    ensures scratch_after { scratch.new
        ≡ seal_scratch first_key.now second_key.now rounds size_block payload.now
        scratch.old out.old }
{
    try_seal(
        first_key, second_key, rounds, size_block, payload, scratch, out,
    )?;
    seal_in(
        first_key,
        second_key,
        rounds,
        size_block,
        page_number,
        payload,
        &mut scratch[..576],
        &mut out[..512],
    );
    Ok(())
}
