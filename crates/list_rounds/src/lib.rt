// The rounds over a subkey list in lent bytes, whether a key gives the list or not.

#![tactic(auto)]

ghost use Rattle.std.specs.Prelude.{◌≡◌, true, length};
ghost use Rattle.rounds.specs.Rounds.{enciphered};
ghost use Rattle.block_bytes.specs.Blocks.{list_states};
ghost use Rattle.list_rounds.specs.ListRounds.{list_length};

use blocks::state_of;
use key_addition::add_key;

pub fn is_list_length(n: usize) -> bool
    ensures { result ≡ list_length n }
{
    132 <= n && n <= 288 && n % 12 == 0
}

// The rounds under all subkeys of a list: subkey 0 is added first. Every round substitutes and permutes, and all but the last diffuse. One loop has them
// all, and a subkey is read after the S-boxes of its round; both make it fast (DECISIONS 54).
pub fn encipher_state(list: &[u8], a: [[u8; 3]; 4]) -> [[u8; 3]; 4]
    requires { list_length (length list.now) ≡ true }
    ensures { result ≡ enciphered (list_states list.now) a }
{
    let n = list.len() / 12;
    let mut state = add_key(state_of(&list[..12]), a);
    for r in 1..n {
        let substituted = substitution::substitute(state);
        let permuted = permutation::permute(substituted);
        let at = 12 * r;
        let k = state_of(&list[at..at + 12]);
        let mixed = if r + 1 == n {
            permuted
        } else {
            diffusion::diffuse(permuted)
        };
        // Kept in two lines: of an array that a call lays straight in `state`, nothing can be proved yet.
        let next = add_key(k, mixed);
        state = next;
    }
    state
}
