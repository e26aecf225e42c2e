// One block enciphered or deciphered: the subkey list is prepared in local bytes, and the engine runs over it.

#![tactic(auto)]

ghost use Rattle.std.specs.Prelude.{◌≡◌, length};
ghost use Rattle.refusal.specs.Reasons.{outcome_number};
ghost use Rattle.rounds.specs.Rounds.{enciphered};
ghost use Rattle.block_bytes.specs.Blocks.{state_of};
ghost use Rattle.key_lists.specs.KeyLists.{list_for};
ghost use Rattle.key_lists.specs.declared.Direction.TheVariants.{Enciphering, Deciphering};
ghost use Rattle.cipher.specs.Cipher.{cipher_number, cipher_output};
ghost use Rattle.cipher.specs.ForProver.{Runnable};

use filling::fill_for;
use key_lists::Direction;
use refusal::Reason;

// A block under the key's list for a direction, for a caller that has tried key, round count and block.
#[tactic(auto, using(key_lists::proofs::Lists::read_back))]
pub fn state_under(direction: Direction, key: &[u8], rounds: u32, block: &[u8]) -> [[u8; 3]; 4]
    requires { Runnable (length key.now) rounds (length block.now) }
    ensures { result ≡ enciphered (list_for direction key.now rounds) (state_of block.now) }
{
    let count = rounds as usize;
    let mut list = [0u8; 288];
    fill_for(direction, key, count, &mut list);
    let n = 12 * (count + 1);
    list_rounds::encipher_state(&list[..n], blocks::state_of(block))
}

// A block under the list for a direction.
#[tactic(auto, unfolding(refusal::specs::Tries::first, refusal::specs::Tries::written, crate::specs::Cipher::cipher_block))]
fn run_block(
    direction: Direction,
    key: &[u8],
    rounds: u32,
    block: &[u8],
    out: &mut [u8],
) -> Result<(), Reason>
    ensures result_value { outcome_number result ≡ cipher_number key.now rounds block.now out.old }
    ensures out_after { out.new ≡ cipher_output direction key.now rounds block.now out.old }
{
    settings::try_settings(key.len(), rounds)?;
    engine::try_block(block.len(), out.len())?;
    blocks::write_state(out, state_under(direction, key, rounds, block));
    Ok(())
}

// Enciphers one block.
pub fn encipher(key: &[u8], rounds: u32, block: &[u8], out: &mut [u8]) -> Result<(), Reason>
    ensures result_value { outcome_number result ≡ cipher_number key.now rounds block.now out.old }
    ensures out_after { out.new ≡ cipher_output Enciphering key.now rounds block.now out.old }
{
    run_block(Direction::Enciphering, key, rounds, block, out)
}

// Deciphers one block.
pub fn decipher(key: &[u8], rounds: u32, block: &[u8], out: &mut [u8]) -> Result<(), Reason>
    ensures result_value { outcome_number result ≡ cipher_number key.now rounds block.now out.old }
    ensures out_after { out.new ≡ cipher_output Deciphering key.now rounds block.now out.old }
{
    run_block(Direction::Deciphering, key, rounds, block, out)
}
