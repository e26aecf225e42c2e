// The engine: the whole enciphering of a block under a lent subkey list, whether a key gives the list or not.

#![tactic(auto)]

ghost use Rattle.std.specs.Prelude.{◌≡◌};
ghost use Rattle.refusal.specs.Reasons.{outcome_number};
ghost use Rattle.refusal.specs.Tries.{first};
ghost use Rattle.engine.specs.Engine.{block_tries, engine_number, engine_output};

use blocks::{state_of, write_state};
use refusal::{Reason, require};

// A block of so many bytes, then the room for the block that is written: what every call on one block tries last.
#[tactic(auto, unfolding(refusal::specs::Tries::first))]
pub fn try_block(block: usize, room: usize) -> Result<(), Reason>
    ensures { outcome_number result ≡ first (block_tries block room) }
{
    require(block == 12, Reason::InputLength)?;
    require(12 <= room, Reason::OutputTooShort)
}

// Enciphers a block under a lent list of 11 to 24 subkeys.
#[tactic(auto, unfolding(refusal::specs::Tries::first, refusal::specs::Tries::written, crate::specs::Engine::engine_block))]
pub fn run(list: &[u8], block: &[u8], out: &mut [u8]) -> Result<(), Reason>
    ensures result_value { outcome_number result ≡ engine_number list.now block.now out.old }
    ensures out_after { out.new ≡ engine_output list.now block.now out.old }
{
    let is_list = list_rounds::is_list_length(list.len());
    require(is_list, Reason::StageOrList)?;
    try_block(block.len(), out.len())?;
    let enciphered = list_rounds::encipher_state(list, state_of(block));
    write_state(out, enciphered);
    Ok(())
}
