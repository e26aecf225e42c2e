// The S-box of a byte, computed from two mini-boxes of sixteen 4-bit numbers. What is computed between two look-ups is kept as wide as an index.

#![tactic(auto)]

ghost use Rattle.std.specs.Prelude.{◌≡◌, ◌%◌, ◌<◌};
ghost use Rattle.sbox.specs.Sbox.{table_p, table_q, mini_p, mini_q, join_tops, join_lows, join_halves, sbox};
ghost use Rattle.sbox.specs.ForProver.{IsNibble};

// The mini-boxes. They lie in memory once, in the program, and no call copies them.
pub const P: [u8; 16] = [3, 15, 14, 0, 5, 4, 11, 12, 13, 10, 9, 6, 7, 8, 2, 1];

pub const Q: [u8; 16] = [9, 14, 5, 6, 10, 2, 3, 12, 15, 0, 4, 13, 7, 11, 1, 8];

#[tactic(auto, using(crate::proofs::Laws::p_small), unfolding(crate::specs::Sbox::table_p))]
fn mini_p(x: usize) -> usize
    requires { x < 16 }
    ensures { IsNibble result (mini_p x) }
{
    P[x] as usize
}

#[tactic(auto, using(crate::proofs::Laws::q_small), unfolding(crate::specs::Sbox::table_q))]
fn mini_q(x: usize) -> usize
    requires { x < 16 }
    ensures { IsNibble result (mini_q x) }
{
    Q[x] as usize
}

// The top two bits of h joined to the top two of l.
#[tactic(auto, using(crate::proofs::Laws::tops_is))]
fn join_tops(h: usize, l: usize) -> usize
    requires { (h < 16) × (l < 16) }
    ensures { IsNibble result (join_tops h l) }
{
    (h & 12) | (l >> 2)
}

// The low two bits of h joined to the low two of l.
fn join_lows(h: usize, l: usize) -> usize
    requires { (h < 16) × (l < 16) }
    ensures { IsNibble result (join_lows h l) }
{
    ((h & 3) << 2) | (l & 3)
}

// h as the high half of a byte, l as its low half.
fn join_halves(h: usize, l: usize) -> u8
    requires { (h < 16) × (l < 16) }
    ensures { result ≡ join_halves h l }
{
    ((h << 4) | l) as u8
}

fn low_half(x: u8) -> usize
    ensures { IsNibble result (x % 16) }
{
    (x & 15) as usize
}

// The S-box of a byte.
#[tactic(auto, unfolding(crate::specs::Sbox::sbox))]
pub fn substitute_byte(x: u8) -> u8
    ensures { result ≡ sbox x }
{
    let h1 = mini_p((x >> 4) as usize);
    let l1 = mini_q(low_half(x));
    let h2 = mini_q(join_tops(h1, l1));
    let l2 = mini_p(join_lows(h1, l1));
    let h3 = mini_p(join_tops(h2, l2));
    let l3 = mini_q(join_lows(h2, l2));
    join_halves(h3, l3)
}
