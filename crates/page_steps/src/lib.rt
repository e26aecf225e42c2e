// The steps in which a page is made in the output: header and payload are laid out, the payload is chained in its place, and the check is put
// after it.

#![tactic(auto)]

ghost use Rattle.std.specs.Prelude.{◌≡◌, ◌++◌, ◌+◌, ◌≤◌, length, take, drop};
ghost use Rattle.block_bytes.specs.Blocks.{state_of};
ghost use Rattle.chaining.specs.Chaining.{chained_bytes};
ghost use Rattle.pages.specs.Pages.{header, filled, check_over};
ghost use Rattle.pages.specs.Keyed.{enciphering};
ghost use Rattle.page_parts.specs.ForProver.{Ready};

use pages::Header;

// The payload after the header.
// Kept: byte by byte, and not `blocks::put_bytes`. Both slices are lent by the host, and a copy from one to the other would have the archive need
// `memmove`, where it is said to need `memcpy` and `memset` alone.
fn put_payload(payload: &[u8], out: &mut [u8])
    requires { 12 + length payload.now ≤ length out.old }
    ensures { out.new ≡ take 12 out.old ++ (payload.now ++ drop (12 + length payload.now) out.old) }
{
    for i in 0..payload.len() {
        out[12 + i] = payload[i];
    }
}

// The header and the payload as they are sealed, before anything is enciphered.
pub fn lay_out(size_block: u32, page_number: u16, payload: &[u8], out: &mut [u8])
    requires { (length payload.now ≤ 492) × (length out.old ≡ 512) }
    ensures { out.new
        ≡ header size_block page_number (length payload.now) ++ (filled payload.now ++ drop 504 out.old) }
{
    let used = payload.len();
    let head = pages::header_of(Header {
        size_block,
        page_number,
        used: used as u16,
    });
    blocks::put_bytes(out, 0, &head);
    put_payload(payload, out);
    byte_slices::clear(&mut out[12 + used..504]);
}

// The payload chained in its place, from the header enciphered.
#[tactic(auto, using(key_lists::proofs::Lists::read_list))]
pub fn chain_payload(key: &[u8], rounds: u32, room: &mut [u8], out: &mut [u8])
    requires { Ready (length key.now) rounds (length room.old) × (length out.old ≡ 512) }
    ensures out_after { out.new
        ≡ take 12 out.old ++ (chained_bytes (enciphering key.now rounds)
        (enciphering key.now rounds (state_of (take 12 out.old))) (take 492 (drop 12 out.old))
        ++ drop 504 out.old) }
    ensures room_len_unchanged { length room.new ≡ length room.old }
{
    let start = page_parts::start_under(key, rounds, out, room);
    let n = 12 * (rounds as usize + 1);
    chain::chain(&room[..n], start, &mut out[12..504]);
}

// The check put after the stored bytes.
pub fn put_check(key: &[u8], rounds: u32, room: &mut [u8], out: &mut [u8])
    requires { Ready (length key.now) rounds (length room.old) × (length out.old ≡ 512) }
    ensures out_after { out.new
        ≡ take 504 out.old ++ check_over (enciphering key.now rounds) (take 504 out.old) }
    ensures room_len_unchanged { length room.new ≡ length room.old }
{
    let check = page_parts::check_under(key, rounds, out, room);
    blocks::put_bytes(out, 504, &check);
}
