// A key's subkey list written to lent bytes, twelve bytes a subkey. The key's stage is carried along; each subkey is written as its stage is
// reached.

#![tactic(auto)]

ghost use Rattle.std.specs.Prelude.{◌≡◌, cond, ◌&&◌, ◌++◌, ◌+◌, ◌-◌, ◌*◌, ◌≤◌, ltb, length, take, drop};
ghost use Rattle.layers.specs.Layers.{diffused};
ghost use Rattle.block_bytes.specs.Blocks.{bytes_of, list_bytes};
ghost use Rattle.stages.specs.Stages.{subkey_of};
ghost use Rattle.key_lists.specs.KeyLists.{list_for};
ghost use Rattle.key_lists.specs.ForProver.{Fits};
ghost use Rattle.key_lists.specs.declared.Direction.TheVariants.{Enciphering, Deciphering};

use blocks::write_state;
use key_lists::Direction;

// Subkey s of 0 to R as the turned list has it: diffused, unless it is the first or the last, which change places.
fn turn_subkey(k: [[u8; 3]; 4], s: usize, rounds: usize) -> [[u8; 3]; 4]
    ensures { result ≡ cond (ltb 0 s && ltb s rounds) (diffused k) k }
{
    if 0 < s && s < rounds {
        diffusion::diffuse(k)
    } else {
        k
    }
}

// The subkey of stage s in its place: the list for enciphering is filled from the front, the turned one from the back.
fn put_subkey(direction: Direction, k: &[u8; 24], s: usize, rounds: usize, out: &mut [u8])
    requires { (s ≤ rounds) × (12 * (rounds + 1) ≤ length out.old) }
    ensures front { direction ≡ Enciphering
        → out.new ≡ take (12 * s) out.old ++ (bytes_of (subkey_of k.now) ++ drop 12 (drop (12 * s) out.old)) }
    ensures back { direction ≡ Deciphering
        → out.new ≡ take (12 * (rounds - s)) out.old
        ++ (bytes_of (cond (ltb 0 s && ltb s rounds) (diffused (subkey_of k.now)) (subkey_of k.now))
        ++ drop 12 (drop (12 * (rounds - s)) out.old)) }
{
    let subkey = subkeys::subkey(k);
    match direction {
        Direction::Enciphering => write_state(&mut out[12 * s..], subkey),
        Direction::Deciphering => {
            let turned = turn_subkey(subkey, s, rounds);
            write_state(&mut out[12 * (rounds - s)..], turned)
        }
    }
}

// The list for a direction.
pub fn fill_for(direction: Direction, key: &[u8], rounds: usize, out: &mut [u8])
    requires { Fits (length key.now) rounds (length out.old) }
    ensures { out.new ≡ list_bytes (list_for direction key.now rounds) ++ drop (12 * (rounds + 1)) out.old }
{
    let t = key.len() / 6;
    let mut k = schedule::stage_of_key(key);
    put_subkey(direction, &k, 0, rounds, out);
    for before in 0..rounds {
        let s = before + 1;
        schedule::next_stage(t, s, &mut k);
        put_subkey(direction, &k, s, rounds, out);
    }
}
