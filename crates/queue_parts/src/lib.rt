// What the calls that check a queue of grants are made of: what is tried of one, and a verdict as the byte that answers for a grant.

#![tactic(auto)]

ghost use Rattle.std.specs.Prelude.{◌≡◌};
ghost use Rattle.refusal.specs.Reasons.{outcome_number};
ghost use Rattle.refusal.specs.Tries.{first};
ghost use Rattle.grant.specs.Grants.{verdict_number};
ghost use Rattle.queue_parts.specs.QueueParts.{queue_length, queue_input_tries};

use grant::Verdict;
use refusal::{Reason, require};
use rights::is_right;
use size_blocks::is_size_block;

// Whether so many bytes are a queue's: 0 to 64 grants.
pub fn is_queue_length(n: usize) -> bool
    ensures { result ≡ queue_length n }
{
    n % 12 == 0 && n <= 768
}

// What is tried of a queue: the settings, the lengths, the room for the answers, and the right and the size block that are asked for. The key has
// n bytes.
#[tactic(auto, unfolding(refusal::specs::Tries::first, size_blocks::specs::SizeBlocks::is_size_block))]
pub fn try_queue(
    n: usize,
    rounds: u32,
    lengths: bool,
    grants: usize,
    room: usize,
    size_block: u32,
    right: u32,
) -> Result<(), Reason>
    ensures { outcome_number result ≡ first (queue_input_tries n rounds lengths grants room size_block right) }
{
    settings::try_settings(n, rounds)?;
    require(lengths, Reason::InputLength)?;
    require(grants / 12 <= room, Reason::OutputTooShort)?;
    require(is_right(right), Reason::UnknownRight)?;
    require(is_size_block(size_block), Reason::BlockZero)
}

// What answers for a grant: 0 if it opens, else its refusal's number.
// Kept: the C interface: a byte of `gordzila_check_queue` answers for a grant.
pub fn verdict_byte(verdict: Verdict) -> u8
    ensures { result ≡ verdict_number verdict }
{
    match verdict {
        Ok(_) => 0,
        Err(reason) => u32::from(reason) as u8,
    }
}
