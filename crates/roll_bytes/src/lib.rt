// A roll as hosts keep and lend it: the counts, two bytes for each contractor, big end first, and then the rights, a byte for each. An entry is read and
// written where it lies.

#![tactic(auto)]

ghost use Rattle.std.specs.Prelude.{◌≡◌, true, ◌+◌, ◌++◌, ◌≤◌, ◌<◌, eqb, length, take, drop, get_or};
ghost use Rattle.refusal.specs.Reasons.{outcome_number};
ghost use Rattle.refusal.specs.Tries.{first};
ghost use Rattle.roll.specs.Roll.{empty_roll, with_entry};
ghost use Rattle.roll_bytes.specs.RollBytes.{roll_length, counts_length, counts_of, roll_of, roll_bytes, roll_tries};
ghost use Rattle.roll_bytes.specs.ForProver.{Writable};

use refusal::{Reason, require};
use roll::{AsRoll, Entry, is_contractor};

// The bytes of a roll as hosts lend it.
pub const ROLL_BYTES: usize = 600;

// Those of its counts, after which the rights lie.
const COUNTS_BYTES: usize = 400;

// Whether so many bytes are a roll's.
#[tactic(auto, unfolding(refusal::specs::Tries::first))]
pub fn try_roll(n: usize) -> Result<(), Reason>
    ensures { outcome_number result ≡ first (roll_tries n) }
{
    require(n == ROLL_BYTES, Reason::InputLength)
}

// Bytes that are lent as a roll's.
#[derive(Clone, Copy)]
pub struct RollBytes<'a> {
    pub bytes: &'a [u8],
}

// The count of the contractor before whom so many stand on the roll.
#[tactic(auto, using(crate::proofs::Entries::count_read))]
fn count_in(bytes: &[u8], before: usize) -> u16
    requires { before < 200 }
    ensures { result ≡ get_or (counts_of (take counts_length bytes.now)) before 0 }
{
    let at = 2 * before;
    if bytes.len() < at + 2 {
        return 0;
    }
    u16::from_be_bytes([bytes[at], bytes[at + 1]])
}

// Their figure.
fn figure_in(bytes: &[u8], before: usize) -> u8
    requires { before < 200 }
    ensures { result ≡ get_or (drop counts_length bytes.now) before 0 }
{
    bytes.get(COUNTS_BYTES + before).copied().unwrap_or(0)
}

impl AsRoll for RollBytes<'_> {
    ghost roll = { λ roll. roll_of roll.bytes.now };

    ghost whole = { λ roll. eqb (length roll.bytes.now) roll_length };

    fn is_whole(&self) -> bool {
        self.bytes.len() == ROLL_BYTES
    }

    #[tactic(auto, unfolding(roll::specs::Roll::count_of, roll::specs::Roll::figure_of, crate::specs::RollBytes::roll_of))]
    fn entry(&self, contractor: u32) -> Entry {
        if !is_contractor(contractor) {
            return Entry::default();
        }
        let before = (contractor - 1) as usize;
        Entry {
            count: count_in(self.bytes, before),
            figure: figure_in(self.bytes, before),
        }
    }
}

// The bytes of the roll with another entry for a contractor.
#[tactic(auto, using(crate::proofs::Entries::entry_put))]
pub fn write_entry(bytes: &mut [u8], contractor: u32, entry: Entry)
    requires { Writable bytes.old contractor }
    ensures { bytes.new ≡ roll_bytes (with_entry (roll_of bytes.old) contractor entry) }
{
    let before = (contractor - 1) as usize;
    let count = entry.count.to_be_bytes();
    bytes[2 * before] = count[0];
    bytes[2 * before + 1] = count[1];
    bytes[COUNTS_BYTES + before] = entry.figure;
}

// The bytes of the empty roll, at the front of an output.
pub fn write_empty(out: &mut [u8])
    requires { roll_length ≤ length out.old }
    ensures { out.new ≡ roll_bytes empty_roll ++ drop roll_length out.old }
{
    out[..COUNTS_BYTES].fill(0);
    out[COUNTS_BYTES..ROLL_BYTES].fill(1);
}
