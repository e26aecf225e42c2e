// What sealing and opening a page do with a key: its list is prepared in lent room, and over it the header is enciphered or the check made.

#![tactic(auto)]

ghost use Rattle.std.specs.Prelude.{◌≡◌, ◌++◌, ◌+◌, ◌*◌, length, take, drop};
ghost use Rattle.block_bytes.specs.Blocks.{state_of, list_bytes};
ghost use Rattle.key_lists.specs.declared.Direction.TheVariants.{Enciphering};
ghost use Rattle.key_lists.specs.KeyLists.{list_for};
ghost use Rattle.pages.specs.Pages.{check_over};
ghost use Rattle.pages.specs.Keyed.{enciphering};
ghost use Rattle.page_parts.specs.ForProver.{Ready};

use filling::fill_for;
use key_lists::Direction;

// The header enciphered, which the chaining of the payload starts from. The key's list is left in the room.
#[tactic(auto, using(key_lists::proofs::Lists::read_list))]
pub fn start_under(key: &[u8], rounds: u32, page: &[u8], room: &mut [u8]) -> [[u8; 3]; 4]
    requires { Ready (length key.now) rounds (length room.old) × (length page.now ≡ 512) }
    ensures value { result ≡ enciphering key.now rounds (state_of (take 12 page.now)) }
    ensures room_after { room.new
        ≡ list_bytes (list_for Enciphering key.now rounds) ++ drop (12 * (rounds + 1)) room.old }
{
    let count = rounds as usize;
    fill_for(Direction::Enciphering, key, count, room);
    let n = 12 * (count + 1);
    list_rounds::encipher_state(&room[..n], blocks::state_of(&page[..12]))
}

// The check over bytes 0 to 503 of a page, as they are stored.
#[tactic(auto, using(key_lists::proofs::Lists::read_list), unfolding(pages::specs::Pages::check_over))]
pub fn check_under(key: &[u8], rounds: u32, page: &[u8], room: &mut [u8]) -> [u8; 8]
    requires { Ready (length key.now) rounds (length room.old) × (length page.now ≡ 512) }
    ensures value { result ≡ check_over (enciphering key.now rounds) (take 504 page.now) }
    ensures room_len_unchanged { length room.new ≡ length room.old }
{
    let count = rounds as usize;
    fill_for(Direction::Enciphering, key, count, room);
    let n = 12 * (count + 1);
    let stored = &page[..504];
    let last = chain::last_of_chain(&room[..n], [[0u8; 3]; 4], stored);
    let mut bytes = [0u8; 12];
    blocks::write_state(&mut bytes, last);
    let mut check = [0u8; 8];
    check.copy_from_slice(&bytes[..8]);
    check
}
