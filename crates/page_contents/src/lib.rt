// What stands in a page: whether its check agrees, and the payload, which is written only where its unused bytes are zero.

#![tactic(auto)]

ghost use Rattle.std.specs.Prelude.{◌≡◌, cond, ◌++◌, ◌≤◌, length, drop};
ghost use Rattle.rounds.specs.Rounds.{enciphered};
ghost use Rattle.block_bytes.specs.Blocks.{list_states};
ghost use Rattle.byte_slices.specs.Slices.{all_zero};
ghost use Rattle.chaining.specs.Chaining.{unchained_bytes};
ghost use Rattle.unchain.specs.ForProver.{Undoable};
ghost use Rattle.pages.specs.Pages.{payload_in, check_agrees, unused_zero};
ghost use Rattle.pages.specs.Keyed.{enciphering, deciphering};
ghost use Rattle.page_contents.specs.ForProver.{Readable};

use key_lists::Direction;

// Whether the last 8 bytes of a page are its check.
#[tactic(auto, unfolding(pages::specs::Pages::check_agrees))]
pub fn check_agrees(key: &[u8], rounds: u32, page: &[u8], room: &mut [u8]) -> bool
    requires { Readable (length key.now) rounds page.now (length room.old) }
    ensures value { result ≡ check_agrees (enciphering key.now rounds) page.now }
    ensures room_len_unchanged { length room.new ≡ length room.old }
{
    let check = page_parts::check_under(key, rounds, page, room);
    byte_slices::same(&check, &page[504..])
}

// A chaining undone to the output, where it is zero from byte n on; where it is not, nothing is written.
fn undo_if_zero(list: &[u8], start: [[u8; 3]; 4], bytes: &[u8], n: usize, out: &mut [u8]) -> bool
    requires { Undoable (length list.now) (length bytes.now) (length out.old) × (n ≤ length bytes.now) }
    ensures value { result ≡ all_zero (drop n (unchained_bytes (enciphered (list_states list.now)) start bytes.now)) }
    ensures out_after { out.new
        ≡ cond result (unchained_bytes (enciphered (list_states list.now)) start bytes.now
        ++ drop (length bytes.now) out.old) out.old }
{
    let zero = unchain::is_zero_from(list, start, bytes, n);
    if zero {
        unchain::unchain(list, start, bytes, out);
    }
    zero
}

// The payload to the output, where its unused bytes are zero; where they are not, nothing is written.
#[tactic(auto, using(key_lists::proofs::Lists::read_list), unfolding(pages::specs::Pages::payload_in, pages::specs::Pages::unused_zero))]
pub fn open_payload(key: &[u8], rounds: u32, page: &[u8], room: &mut [u8], out: &mut [u8]) -> bool
    requires { Readable (length key.now) rounds page.now (length room.old) × (492 ≤ length out.old) }
    ensures value { result ≡ unused_zero (enciphering key.now rounds) (deciphering key.now rounds) page.now }
    ensures out_after { out.new
        ≡ cond result (payload_in (enciphering key.now rounds) (deciphering key.now rounds) page.now
        ++ drop 492 out.old) out.old }
    ensures room_len_unchanged { length room.new ≡ length room.old }
{
    let start = page_parts::start_under(key, rounds, page, room);
    let count = rounds as usize;
    filling::fill_for(Direction::Deciphering, key, count, room);
    let used = pages::used_in(page) as usize;
    let n = 12 * (count + 1);
    undo_if_zero(&room[..n], start, &page[12..504], used, out)
}
