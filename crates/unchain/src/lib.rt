// A chaining undone: whole blocks deciphered from lent bytes to others, and the test that they are zero from a place on, which writes nothing.

#![tactic(auto)]

ghost use Rattle.std.specs.Prelude.{◌≡◌, true, ◌++◌, ◌*◌, ◌≤◌, length, drop};
ghost use Rattle.layers.specs.Layers.{added};
ghost use Rattle.rounds.specs.Rounds.{enciphered};
ghost use Rattle.block_bytes.specs.Blocks.{bytes_of, list_states};
ghost use Rattle.list_rounds.specs.ListRounds.{list_length};
ghost use Rattle.byte_slices.specs.Slices.{all_zero};
ghost use Rattle.chaining.specs.Chaining.{unchained_bytes};
ghost use Rattle.unchain.specs.ForProver.{block_before, Undoable, Testable};

// A block of what was chained: deciphered, and added to the enciphered block before it.
fn plain_block(list: &[u8], previous: [[u8; 3]; 4], block: [[u8; 3]; 4]) -> [[u8; 3]; 4]
    requires { list_length (length list.now) ≡ true }
    ensures { result ≡ added previous (enciphered (list_states list.now) block) }
{
    let deciphered = list_rounds::encipher_state(list, block);
    key_addition::add_key(previous, deciphered)
}

// The chaining of some bytes undone, from a start and under the list for deciphering.
pub fn unchain(list: &[u8], start: [[u8; 3]; 4], bytes: &[u8], out: &mut [u8])
    requires { Undoable (length list.now) (length bytes.now) (length out.old) }
    ensures { out.new
        ≡ unchained_bytes (enciphered (list_states list.now)) start bytes.now ++ drop (length bytes.now) out.old }
{
    let mut previous = start;
    for i in 0..bytes.len() / 12 {
        let at = 12 * i;
        let block = blocks::state_of(&bytes[at..at + 12]);
        let plain = plain_block(list, previous, block);
        blocks::write_state(&mut out[at..], plain);
        previous = block;
    }
}

// The enciphered block before block i; before the first, the start.
#[tactic(auto, using(crate::proofs::Steps::before_read), unfolding(crate::specs::ForProver::block_before))]
fn block_before(start: [[u8; 3]; 4], bytes: &[u8], i: usize) -> [[u8; 3]; 4]
    requires { 12 * i ≤ length bytes.now }
    ensures { result ≡ block_before start (list_states bytes.now) i }
{
    if i == 0 {
        return start;
    }
    let at = 12 * (i - 1);
    blocks::state_of(&bytes[at..at + 12])
}

// The bytes of a block are zero from a place on.
fn zero_from(block: [[u8; 3]; 4], n: usize) -> bool
    ensures { result ≡ all_zero (drop n (bytes_of block)) }
{
    let mut plain = [0u8; 12];
    blocks::write_state(&mut plain, block);
    byte_slices::zeros_from(&plain, n)
}

// Whether what was chained is zero from byte n on. The blocks that hold these bytes are undone one by one, and kept nowhere.
pub fn is_zero_from(list: &[u8], start: [[u8; 3]; 4], bytes: &[u8], n: usize) -> bool
    requires { Testable (length list.now) (length bytes.now) n }
    ensures { result ≡ all_zero (drop n (unchained_bytes (enciphered (list_states list.now)) start bytes.now)) }
{
    let mut zero = true;
    let mut skip = n % 12;
    let mut previous = block_before(start, bytes, n / 12);
    for i in n / 12..bytes.len() / 12 {
        let at = 12 * i;
        let block = blocks::state_of(&bytes[at..at + 12]);
        let plain = plain_block(list, previous, block);
        zero &= zero_from(plain, skip);
        previous = block;
        skip = 0;
    }
    zero
}
