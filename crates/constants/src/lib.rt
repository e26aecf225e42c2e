// The constant of every step of the key schedule, added to a stage in place. A stage of 2t columns stands in 24 bytes; what stands past it stays.

#![tactic(auto)]

ghost use Rattle.std.specs.Prelude.{◌≡◌, ◌++◌, ◌*◌, ◌<◌, drop};
ghost use Rattle.stages.specs.Columns.{plus, padded};
ghost use Rattle.stages.specs.Stages.{constant, closing_sum, step_constant};
ghost use Rattle.sizes.specs.Sizes.{turn, Sized};

// The closing sums for t = 2, 3 and 4: what 6t - 1 steps make of an all-zero key, each with zeros past it.
static CLOSING_96: [u8; 24] = [
    18, 155, 46, 59, 91, 100, 158, 174, 27, 10, 49, 14, 0, 0, 0, 0, 0, 0, 0, 0, 0, 0, 0, 0,
];

static CLOSING_144: [u8; 24] = [
    19, 119, 227, 170, 191, 90, 214, 17, 56, 192, 137, 73, 253, 174, 19, 18, 78, 107, 0, 0, 0, 0,
    0, 0,
];

static CLOSING_192: [u8; 24] = [
    222, 131, 12, 55, 40, 136, 26, 214, 34, 63, 70, 78, 24, 237, 22, 124, 173, 137, 156, 135, 7,
    152, 4, 136,
];

// The closing sum for t.
fn closing_sum(t: usize) -> &'static [u8; 24]
    requires { Sized t }
    ensures { result.now ≡ padded (closing_sum t) }
{
    match t {
        2 => &CLOSING_96,
        3 => &CLOSING_144,
        _ => &CLOSING_192,
    }
}

// The closing sum added to a stage in place.
fn add_closing(t: usize, k: &mut [u8; 24])
    requires { Sized t }
    ensures { k.new ≡ plus (2 * t) k.old (closing_sum t) ++ drop (6 * t) k.old }
{
    let sum = closing_sum(t);
    for i in 0..6 * t {
        k[i] ^= sum[i];
    }
}

// Constant s, which has zeros in rows 1 and 2, added to a stage in place: two of the 2t columns at a time, which takes fewer instructions.
#[tactic(auto, unfolding(stages::specs::Columns::columns))]
fn add_row(t: usize, s: usize, k: &mut [u8; 24])
    requires { Sized t × ((0 < s) × (s < turn t)) }
    ensures { k.new ≡ plus (2 * t) k.old (constant t s) ++ drop (6 * t) k.old }
{
    let first = 2 * t * (s - 1);
    for i in 0..t {
        let entry = first + 2 * i;
        k[6 * i] ^= sbox::substitute_byte(entry as u8);
        k[6 * i + 3] ^= sbox::substitute_byte((entry + 1) as u8);
    }
}

// The constant of step s added to a stage in place, for every s. At 0 and above 6t it is zero, and no index into the S-box is worked out.
pub fn add_constant(t: usize, s: usize, k: &mut [u8; 24])
    requires { Sized t }
    ensures { k.new ≡ plus (2 * t) k.old (step_constant t s) ++ drop (6 * t) k.old }
{
    let turn = 6 * t;
    if 0 < s && s < turn {
        add_row(t, s, k);
    } else if s == turn {
        add_closing(t, k);
    }
}
