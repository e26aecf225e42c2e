// Blocks in lent bytes chained under a subkey list, in their place; and the last block of such a chaining, with the bytes left as they are.

#![tactic(auto)]

ghost use Rattle.std.specs.Prelude.{◌≡◌, true, ◌*◌, ◌/◌, length};
ghost use Rattle.layers.specs.Layers.{added};
ghost use Rattle.rounds.specs.Rounds.{enciphered};
ghost use Rattle.block_bytes.specs.Blocks.{state_of, list_states};
ghost use Rattle.list_rounds.specs.ListRounds.{list_length};
ghost use Rattle.chaining.specs.Chaining.{chained_bytes, last_chained};
ghost use Rattle.chaining.specs.ForProver.{Chainable};

// The next block of a chaining: added to the one before it, then enciphered.
fn next_block(list: &[u8], previous: [[u8; 3]; 4], block: &[u8]) -> [[u8; 3]; 4]
    requires { (list_length (length list.now) ≡ true) × (length block.now ≡ 12) }
    ensures { result ≡ enciphered (list_states list.now) (added previous (state_of block.now)) }
{
    let sum = key_addition::add_key(previous, blocks::state_of(block));
    list_rounds::encipher_state(list, sum)
}

// Chains whole blocks from a start.
pub fn chain(list: &[u8], start: [[u8; 3]; 4], bytes: &mut [u8])
    requires { Chainable (length list.now) (length bytes.old) }
    ensures { bytes.new ≡ chained_bytes (enciphered (list_states list.now)) start bytes.old }
{
    let mut previous = start;
    for i in 0..bytes.len() / 12 {
        let at = 12 * i;
        let next = next_block(list, previous, &bytes[at..at + 12]);
        blocks::write_state(&mut bytes[at..], next);
        previous = next;
    }
}

// The last block of a chaining from a start.
pub fn last_of_chain(list: &[u8], start: [[u8; 3]; 4], bytes: &[u8]) -> [[u8; 3]; 4]
    requires { list_length (length list.now) ≡ true }
    ensures { result ≡ last_chained (enciphered (list_states list.now)) start bytes.now }
{
    let mut last = start;
    for i in 0..bytes.len() / 12 {
        let at = 12 * i;
        // Kept in two lines: of an array that a call lays straight in `last`, nothing can be proved yet.
        let next = next_block(list, last, &bytes[at..at + 12]);
        last = next;
    }
    last
}
