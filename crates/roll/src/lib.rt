// The roll by value: for each contractor a count, and a figure for the highest right; and what whatever holds a roll
// has in common.

#![tactic(auto)]

ghost use Rattle.std.specs.Prelude.{◌≡◌, Bool, true};
ghost use Rattle.roll.specs.declared.Roll.{Roll};
ghost use Rattle.roll.specs.Roll.{empty_roll, is_contractor, entry_of, in_standing, with_entry};

// Count and figure of contractor c stand at c - 1. The figure 2 stands for overwriting, and any other for reading only.
// Kept: two arrays, and not one of entries, since a rule of the project has the empty roll made as `[0u16; 200]` in a struct passed by value.
#[derive(Clone, Copy, Debug, PartialEq, Eq)]
pub struct Roll {
    pub counts: [u16; 200],
    pub rights: [u8; 200],
}

// What the roll has of one contractor.
#[derive(Clone, Copy, Debug, Default, PartialEq, Eq)]
pub struct Entry {
    pub count: u16,
    pub figure: u8,
}

// What holds a roll, by value or otherwise: each contractor's entry is read from it. Bytes that a host lends may be fewer or more than a roll's, so
// calls also try that it holds a whole one.
pub trait AsRoll {
    ghost roll: { Self → Roll };

    ghost whole: { Self → Bool };

    fn is_whole(&self) -> bool
        ensures { result ≡ whole self.now };

    fn entry(&self, contractor: u32) -> Entry
        ensures { result ≡ entry_of (roll self.now) contractor };
}

// And each is written to it.
pub trait AsRollMut: AsRoll {
    fn set_entry(&mut self, contractor: u32, entry: Entry)
        requires on_whole { Self.whole self.old ≡ true }
        requires on_contractor { is_contractor contractor ≡ true }
        ensures entry_after { Self.roll self.new ≡ with_entry (Self.roll self.old) contractor «entry» }
        ensures whole_after { Self.whole self.new ≡ true };
}

impl AsRoll for Roll {
    ghost roll = { λ roll. roll };

    ghost whole = { λ _. true };

    fn is_whole(&self) -> bool {
        true
    }

    fn entry(&self, contractor: u32) -> Entry {
        entry_of(*self, contractor)
    }
}

impl AsRollMut for Roll {
    fn set_entry(&mut self, contractor: u32, entry: Entry) {
        *self = with_entry(*self, contractor, entry);
    }
}

// A roll on which nobody was ever entered.
#[tactic(auto, unfolding(crate::specs::Roll::empty_roll))]
pub fn empty() -> Roll
    ensures { result ≡ empty_roll }
{
    Roll {
        counts: [0u16; 200],
        rights: [1u8; 200],
    }
}

pub fn is_contractor(c: u32) -> bool
    ensures { result ≡ is_contractor c }
{
    1 <= c && c <= 200
}

// The entry of a contractor, and zeros for a number that is nobody's.
#[tactic(auto, unfolding(crate::specs::Roll::count_of, crate::specs::Roll::figure_of))]
pub fn entry_of(roll: Roll, c: u32) -> Entry
    ensures { result ≡ entry_of roll c }
{
    if !is_contractor(c) {
        return Entry {
            count: 0,
            figure: 0,
        };
    }
    let counts = roll.counts;
    let rights = roll.rights;
    let at = (c - 1) as usize;
    Entry {
        count: counts[at],
        figure: rights[at],
    }
}

// The count is odd and below 65,535.
#[tactic(auto, unfolding(crate::specs::Roll::in_standing))]
pub fn is_in_standing(n: u16) -> bool
    ensures { result ≡ in_standing n }
{
    n % 2 == 1 && n < 65535
}

// The roll with another entry for a contractor.
#[tactic(auto, unfolding(crate::specs::Roll::with_entry))]
pub fn with_entry(roll: Roll, c: u32, entry: Entry) -> Roll
    requires { is_contractor c ≡ true }
    ensures { result ≡ with_entry roll c entry }
{
    let mut counts = roll.counts;
    let mut rights = roll.rights;
    let at = (c - 1) as usize;
    counts[at] = entry.count;
    rights[at] = entry.figure;
    Roll { counts, rights }
}
