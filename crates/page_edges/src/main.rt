// Reads rows of numbers, lengths and what else a page is sealed or opened with, and prints what the call answers: its number, of an opening the
// header's numbers, and what output and scratch hold after it. The rows have each reason for refusing alone, each two that can hold together, and
// both sides of every limit (tools/expected-pages).

#![tactic(auto)]

use byte_slices::zeros_from;
use pages::Header;
use printing::{all_marks, echo, echo_u32, first, first_mut};
use std::io;

const MARK: u8 = 165;

// Kept: a row of the input has a number where the second key is the first once more.
fn second_bytes(same: usize) -> [u8; 32] {
    if same == 1 { [7u8; 32] } else { [9u8; 32] }
}

// A payload of 17 bytes and zeros, with one more byte put at a place.
fn payload(pad: u8, spot: usize) -> [u8; 492] {
    let mut payload = [0u8; 492];
    blocks::put_bytes(&mut payload, 0, &[3u8; 17]);
    let at = spot % 492;
    payload[at] = pad;
    payload
}

// A page with such a payload and any used count, with bytes behind it: laid out as one that is used to its last byte, with the count then put in, so
// that it is chained and checked as it stands. None of these steps refuses size block 0.
fn page(block: u32, payload: &[u8; 492], count: usize) -> [u8; 520] {
    let mut page = [0u8; 512];
    page_steps::lay_out(block, 7, payload, &mut page);
    page[6] = (count / 256 % 256) as u8;
    page[7] = (count % 256) as u8;
    let mut room = [0u8; 576];
    page_steps::chain_payload(&[7u8; 12], 10, &mut room, &mut page);
    page_steps::put_check(&[9u8; 12], 10, &mut room, &mut page);
    let mut longer = [0u8; 520];
    blocks::put_bytes(&mut longer, 0, &page);
    longer
}

// A payload of threes at the start of the output, zeros up to its 492 bytes, and nothing written after them.
fn is_payload(out: &[u8], used: usize) -> bool {
    byte_slices::same(first(out, used), first(&[3u8; 520], used))
        && zeros_from(first(out, 492), used)
        && all_marks(out, 492, MARK)
}

// The 492 bytes of a payload at the start of the output, and nothing written after them.
fn is_written(out: &[u8], payload: &[u8; 492]) -> bool {
    byte_slices::same(first(out, 492), payload) && all_marks(out, 492, MARK)
}

// What the output holds: what was to be written, or what stood there.
fn output_word(written: bool, kept: bool) -> &'static str {
    if kept {
        "kept"
    } else if written {
        "written"
    } else {
        "broken"
    }
}

fn is_cleared(scratch: &[u8]) -> bool {
    zeros_from(first(scratch, 576), 0) && all_marks(scratch, 576, MARK)
}

fn scratch_word(scratch: &[u8]) -> &'static str {
    if all_marks(scratch, 0, MARK) {
        "kept"
    } else if is_cleared(scratch) {
        "cleared"
    } else {
        "broken"
    }
}

// What was sealed opens, with the numbers and the payload that were sealed, and nothing was written after it.
fn opens_again(k: usize, rounds: u32, size_block: u32, page: &[u8], used: usize) -> bool {
    let mut scratch = [0u8; 576];
    let mut out = [MARK; 520];
    let opened = opening::open(
        first(&[7u8; 32], k),
        first(&[9u8; 32], k),
        rounds,
        first(page, 512),
        &mut scratch,
        &mut out,
    );
    let sealed = Header {
        size_block,
        page_number: 7,
        used: (used % 65536) as u16,
    };
    match opened {
        Ok(header) => header == sealed && is_payload(&out, used) && all_marks(page, 512, MARK),
        Err(_) => false,
    }
}

fn seal_line(rt: &(impl Print + Input)) -> io::Result<()> {
    print!(rt; "seal")?;
    let k = echo(rt)?;
    let l = echo(rt)?;
    let second = second_bytes(echo(rt)?);
    let rounds = echo_u32(rt)?;
    let block = echo_u32(rt)?;
    let used = echo(rt)?;
    let s = echo(rt)?;
    let o = echo(rt)?;
    let mut scratch = [MARK; 640];
    let mut out = [MARK; 520];
    let answer = sealing::seal(
        first(&[7u8; 32], k),
        first(&second, l),
        rounds,
        block,
        7,
        first(&[3u8; 520], used),
        first_mut(&mut scratch, s),
        first_mut(&mut out, o),
    );
    let written = opens_again(k, rounds, block, &out, used);
    let output = output_word(written, all_marks(&out, 0, MARK));
    printing::answer(rt, answer.map(|_| []))?;
    println!(rt; " {output} {}", scratch_word(&scratch))
}

fn open_line(rt: &(impl Print + Input)) -> io::Result<()> {
    print!(rt; "open")?;
    let k = echo(rt)?;
    let l = echo(rt)?;
    let second = second_bytes(echo(rt)?);
    let rounds = echo_u32(rt)?;
    let n = echo(rt)?;
    let size_block = echo_u32(rt)?;
    let count = echo(rt)?;
    let pad = (echo(rt)? % 256) as u8;
    let sealed = payload(pad, echo(rt)?);
    let mut bytes = page(size_block, &sealed, count);
    let place = echo(rt)? % 512;
    let change = (echo(rt)? % 256) as u8;
    bytes[place] ^= change;
    let s = echo(rt)?;
    let o = echo(rt)?;
    let mut scratch = [MARK; 640];
    let mut out = [MARK; 520];
    let opened = opening::open(
        first(&[7u8; 32], k),
        first(&second, l),
        rounds,
        first(&bytes, n),
        first_mut(&mut scratch, s),
        first_mut(&mut out, o),
    );
    let output = output_word(is_written(&out, &sealed), all_marks(&out, 0, MARK));
    printing::answer(
        rt,
        opened.map(|h| [h.size_block, u32::from(h.page_number), u32::from(h.used)]),
    )?;
    println!(rt; " {output} {}", scratch_word(&scratch))
}

fn line(rt: &(impl Print + Input), call: u64) -> io::Result<()> {
    match call {
        1 => seal_line(rt),
        _ => open_line(rt),
    }
}

fn main(rt: HostRuntime) -> io::Result<()> {
    printing::each_row(&rt, |call| line(&rt, call))
}
