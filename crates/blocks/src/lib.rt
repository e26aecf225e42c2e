// A state from twelve lent bytes, and a state or any bytes written to lent bytes: byte i + 3j is row i, column j.

#![tactic(auto)]

ghost use Rattle.std.specs.Prelude.{◌≡◌, ◌++◌, ◌+◌, ◌≤◌, length, take, drop};
ghost use Rattle.block_bytes.specs.Blocks.{state_of, bytes_of};

pub fn state_of(b: &[u8]) -> [[u8; 3]; 4]
    requires { 12 ≤ length b.now }
    ensures { result ≡ state_of b.now }
{
    [
        [b[0], b[1], b[2]],
        [b[3], b[4], b[5]],
        [b[6], b[7], b[8]],
        [b[9], b[10], b[11]],
    ]
}

pub fn write_state(out: &mut [u8], a: [[u8; 3]; 4])
    requires { 12 ≤ length out.old }
    ensures { out.new ≡ bytes_of a ++ drop 12 out.old }
{
    let [w, x, y, z] = a;
    out[..12].copy_from_slice(&[
        w[0], w[1], w[2], x[0], x[1], x[2], y[0], y[1], y[2], z[0], z[1], z[2],
    ]);
}

// Bytes put at a place of a lent slice.
pub fn put_bytes(out: &mut [u8], at: usize, bytes: &[u8])
    requires { at + length bytes.now ≤ length out.old }
    ensures { out.new
        ≡ take at out.old ++ (bytes.now ++ drop (at + length bytes.now) out.old) }
{
    out[at..at + bytes.len()].copy_from_slice(bytes);
}
