// The three key sizes: a type for each, with its turn and its round limits as constants.

#![tactic(auto)]

ghost use Rattle.std.specs.Prelude.{◌≡◌, ℕ, ◌*◌, true, refl};
ghost use Rattle.sizes.specs.Sizes.{turn, least_rounds, most_rounds, key_length, size_for, t_of, rounds_allowed, Sized};

// A row of the table of key sizes.
#[derive(Clone, Copy, Debug, PartialEq, Eq)]
pub struct KeySize {
    pub turn: usize,
    pub least: usize,
    pub most: usize,
}

// A key size, by its t: keys of 6t bytes, and a row of the table.
pub trait Size {
    const KEY_BYTES: usize;

    const TURN: usize;

    const LEAST_ROUNDS: usize;

    const MOST_ROUNDS: usize;

    ghost t: { ℕ };

    ghost KEY_BYTES: { ℕ };

    ghost TURN: { ℕ };

    ghost LEAST_ROUNDS: { ℕ };

    ghost MOST_ROUNDS: { ℕ };

    fn size() -> KeySize
        ensures { result ≡ size_for t }
    {
        KeySize {
            turn: Self::TURN,
            least: Self::LEAST_ROUNDS,
            most: Self::MOST_ROUNDS,
        }
    }

    // What each size must prove: its constants are the table's at its t.
    ghost length_is: { KEY_BYTES ≡ 6 * t };

    ghost row_is: { size_for t ≡ record { turn = TURN; least = LEAST_ROUNDS; most = MOST_ROUNDS } };
}

// Keys of 96 bits: t = 2.
#[derive(Clone, Copy, Debug, PartialEq, Eq)]
pub struct Key96 {}

impl Size for Key96 {
    const KEY_BYTES: usize = 12;

    const TURN: usize = 12;

    const LEAST_ROUNDS: usize = 10;

    const MOST_ROUNDS: usize = 11;

    ghost t = { 2 };

    ghost KEY_BYTES = { 6 * 2 };

    ghost TURN = { turn 2 };

    ghost LEAST_ROUNDS = { least_rounds 2 };

    ghost MOST_ROUNDS = { most_rounds 2 };

    ghost length_is = { refl };

    ghost row_is = { refl };
}

// Keys of 144 bits: t = 3.
#[derive(Clone, Copy, Debug, PartialEq, Eq)]
pub struct Key144 {}

impl Size for Key144 {
    const KEY_BYTES: usize = 18;

    const TURN: usize = 18;

    const LEAST_ROUNDS: usize = 14;

    const MOST_ROUNDS: usize = 17;

    ghost t = { 3 };

    ghost KEY_BYTES = { 6 * 3 };

    ghost TURN = { turn 3 };

    ghost LEAST_ROUNDS = { least_rounds 3 };

    ghost MOST_ROUNDS = { most_rounds 3 };

    ghost length_is = { refl };

    ghost row_is = { refl };
}

// Keys of 192 bits: t = 4.
#[derive(Clone, Copy, Debug, PartialEq, Eq)]
pub struct Key192 {}

impl Size for Key192 {
    const KEY_BYTES: usize = 24;

    const TURN: usize = 24;

    const LEAST_ROUNDS: usize = 18;

    const MOST_ROUNDS: usize = 23;

    ghost t = { 4 };

    ghost KEY_BYTES = { 6 * 4 };

    ghost TURN = { turn 4 };

    ghost LEAST_ROUNDS = { least_rounds 4 };

    ghost MOST_ROUNDS = { most_rounds 4 };

    ghost length_is = { refl };

    ghost row_is = { refl };
}

pub fn is_key_length(n: usize) -> bool
    ensures { result ≡ key_length n }
{
    n == Key96::KEY_BYTES || n == Key144::KEY_BYTES || n == Key192::KEY_BYTES
}

// The table's row for t.
pub fn size_for(t: usize) -> KeySize
    requires { Sized t }
    ensures { result ≡ size_for t }
{
    match t {
        2 => Key96::size(),
        3 => Key144::size(),
        _ => Key192::size(),
    }
}

// The table's row for a key of n bytes.
pub fn size_of_key(n: usize) -> KeySize
    requires { key_length n ≡ true }
    ensures { result ≡ size_for (t_of n) }
{
    size_for(n / 6)
}

// The number of stages in a turn, for t.
pub fn turn_for(t: usize) -> usize
    requires { Sized t }
    ensures { result ≡ turn t }
{
    size_for(t).turn
}

// The number of stages in a turn, for a key of n bytes: six for each of its t.
pub fn turn_of_key(n: usize) -> usize
    ensures { result ≡ turn (t_of n) }
{
    6 * (n / 6)
}

// The table has a row for a key of n bytes, and it allows this many rounds.
pub fn is_round_count(n: usize, rounds: u32) -> bool
    ensures { result ≡ rounds_allowed n rounds }
{
    is_key_length(n)
        && {
            let size = size_of_key(n);
            (size.least..=size.most).contains(&(rounds as usize))
        }
}
