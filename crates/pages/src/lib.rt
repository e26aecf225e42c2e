// A page's header: its bytes from its numbers, its numbers from its bytes, and whether bytes have the form of a page.

#![tactic(auto)]

ghost use Rattle.std.specs.Prelude.{◌≡◌, ◌≤◌, length};
ghost use Rattle.pages.specs.Pages.{header, block_in, page_number_in, used_in, page_form};

use numbers::{four_from, two_bytes, two_from};

// The numbers of a page's header.
#[derive(Clone, Copy, Debug, PartialEq, Eq)]
pub struct Header {
    pub size_block: u32,
    pub page_number: u16,
    // How many bytes of the payload are used.
    pub used: u16,
}

// The first 12 bytes of a page.
pub fn header_of(numbers: Header) -> [u8; 12]
    ensures { result ≡ header numbers.size_block numbers.page_number numbers.used }
{
    let b = numbers::four_bytes(numbers.size_block);
    let n = two_bytes(numbers.page_number as u32);
    let u = two_bytes(numbers.used as u32);
    [b[0], b[1], b[2], b[3], n[0], n[1], u[0], u[1], 0, 0, 0, 0]
}

// The numbers that stand in a page's first bytes.
pub fn header_in(page: &[u8]) -> Header
    requires { 12 ≤ length page.now }
    ensures size_block_value { result.size_block ≡ block_in page.now }
    ensures page_number_value { result.page_number ≡ page_number_in page.now }
    ensures used_value { result.used ≡ used_in page.now }
{
    Header {
        size_block: four_from(page[0], page[1], page[2], page[3]),
        page_number: two_from(page[4], page[5]),
        used: used_in(page),
    }
}

// How many bytes of the payload are used.
pub fn used_in(page: &[u8]) -> u16
    requires { 12 ≤ length page.now }
    ensures { result ≡ used_in page.now }
{
    two_from(page[6], page[7])
}

// 512 bytes, a count of at most 492, and zero in bytes 8 to 11.
#[tactic(auto, unfolding(crate::specs::Pages::page_form))]
pub fn is_page(page: &[u8]) -> bool
    ensures { result ≡ page_form page.now }
{
    page.len() == 512 && used_in(page) <= 492 && byte_slices::zeros_from(&page[8..12], 0)
}
