// Lent bytes: whether two are the same, whether they are zero from a place on, and one byte in the place of all of them.

#![tactic(auto)]

ghost use Rattle.std.specs.Prelude.{◌≡◌, length, drop, replicate};
ghost use Rattle.byte_slices.specs.Slices.{all_zero, same_bytes};

// Whether two slices have the same bytes. Where they are of one length, every byte is looked at, wherever the first difference is: the `&=` never stops.
pub fn same(a: &[u8], b: &[u8]) -> bool
    ensures { result ≡ same_bytes a.now b.now }
{
    if a.len() != b.len() {
        return false;
    }
    let mut equal = true;
    for i in 0..a.len() {
        equal &= a[i] == b[i];
    }
    equal
}

// Every byte from n on is zero.
pub fn zeros_from(bytes: &[u8], n: usize) -> bool
    ensures { result ≡ all_zero (drop n bytes.now) }
{
    bytes.iter().skip(n).all(|&b| b == 0)
}

// Every byte becomes the one that is given.
pub fn fill(bytes: &mut [u8], byte: u8)
    ensures { bytes.new ≡ replicate (length bytes.old) byte }
{
    bytes.fill(byte);
}

// Every byte becomes zero.
pub fn clear(bytes: &mut [u8])
    ensures { bytes.new ≡ replicate (length bytes.old) 0 }
{
    fill(bytes, 0);
}
