// Whole pages under keys of every size and every round count, sealed and opened again. Prints each page in the format of the independent program's
// `pages` (reference/README.md).

#![tactic(auto)]

use pages::Header;
use printing::{Draws, Hex, first, first_mut};
use std::io;

// A page opens to the payload and the numbers that were sealed.
fn opens(
    first_key: &[u8],
    second_key: &[u8],
    rounds: u32,
    page: &[u8],
    header: Header,
    payload: &[u8],
) -> bool {
    let mut scratch = [0u8; 576];
    let mut out = [0u8; 492];
    match opening::open(first_key, second_key, rounds, page, &mut scratch, &mut out) {
        Ok(found) => found == header && byte_slices::same(&out, payload),
        Err(_) => false,
    }
}

// One page under a key that was drawn, with the second key, the numbers and the payload drawn after it: it is sealed, printed and opened.
fn page_line(rt: &impl Print, draws: &mut Draws, first_key: &[u8], rounds: u32) -> io::Result<()> {
    let mut second_bytes = [0u8; 24];
    let second_key = first_mut(&mut second_bytes, first_key.len());
    draws.fill(second_key);
    let drawn = draws.bytes::<8>();
    let block = u32::from_be_bytes([drawn[0], drawn[1], drawn[2], drawn[3]]);
    let number = u16::from_be_bytes([drawn[4], drawn[5]]);
    let used = u16::from_be_bytes([drawn[6], drawn[7]]) % 493;
    let mut payload = [0u8; 492];
    draws.fill(first_mut(&mut payload, used as usize));
    let mut scratch = [0u8; 576];
    let mut page = [0u8; 512];
    let _ = sealing::seal(
        first_key,
        second_key,
        rounds,
        block,
        number,
        first(&payload, used as usize),
        &mut scratch,
        &mut page,
    );
    print!(rt; "page {} {} {rounds}", Hex(first_key), Hex(second_key))?;
    print!(rt; " {block} {number} {used} {}", Hex(&page))?;
    let header = Header {
        size_block: block,
        page_number: number,
        used,
    };
    if !opens(first_key, second_key, rounds, &page, header, &payload) {
        print!(rt; " does not open")?;
    }
    print!(rt; "\n")
}

fn main(rt: HostRuntime) -> io::Result<()> {
    printing::each_key(1, |draws, key, rounds| page_line(&rt, draws, key, rounds))
}
