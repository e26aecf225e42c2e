// The key holder: one stage of a key, by value; which holders are whole, and steps on them. The calls that answer a holder stand in crates of
// their own.

#![tactic(auto)]

ghost use Rattle.std.specs.Prelude.{◌≡◌, true};
ghost use Rattle.basics.specs.Repeated.{repeated};
ghost use Rattle.holder.specs.Holder.{holding, whole, blank, stepped};

// A key's length, a stage's number and its bytes, with zeros past the key's length.
#[derive(Clone, Copy, Debug, PartialEq, Eq)]
pub struct Holder {
    pub length: usize,
    pub number: usize,
    pub bytes: [u8; 24],
}

// The direction of a step or a walk.
#[derive(Clone, Copy, Debug, PartialEq, Eq)]
pub enum Way {
    Forward,
    Back,
}

// A holder that no key gives: every call refuses it.
#[tactic(auto, unfolding(crate::specs::Holder::blank))]
impl Default for Holder {
    ghost is_default = { λ h. h ≡ blank };

    fn default() -> Holder {
        Holder {
            length: 0,
            number: 0,
            bytes: [0u8; 24],
        }
    }
}

// A holder that is not refused with 24.
#[tactic(auto, unfolding(crate::specs::Holder::whole))]
pub fn is_whole(h: Holder) -> bool
    ensures { result ≡ whole h }
{
    sizes::is_key_length(h.length)
        && h.number < sizes::turn_of_key(h.length)
        && byte_slices::zeros_from(&h.bytes, h.length)
}

// One step, the way that is told, of a stage of a key of n bytes, in its place; the answer is the number of the stage that it leads to.
#[tactic(auto, using(crate::proofs::Whole::step_on, crate::proofs::Whole::step_back))]
fn step_bytes(way: Way, n: usize, number: usize, bytes: &mut [u8; 24]) -> usize
    requires { whole (holding n number bytes.old) ≡ true }
    ensures { holding n result bytes.new ≡ stepped way (holding n number bytes.old) }
{
    let t = n / 6;
    match way {
        Way::Forward => {
            schedule::next_stage(t, number + 1, bytes);
            cycle::number_after(t, number)
        }
        Way::Back => {
            let before = cycle::number_before(t, number);
            cycle::previous_stage(t, before + 1, bytes);
            before
        }
    }
}

// As many steps as told, one after the other, on a copy of the holder's bytes.
pub fn steps(way: Way, count: usize, h: Holder) -> Holder
    requires { whole h ≡ true }
    ensures { result ≡ repeated count (stepped way) h }
{
    let length = h.length;
    let mut number = h.number;
    let mut bytes = h.bytes;
    for _ in 0..count {
        number = step_bytes(way, length, number, &mut bytes);
    }
    Holder {
        length,
        number,
        bytes,
    }
}

// One step, the way that is told.
pub fn step(way: Way, h: Holder) -> Holder
    requires { whole h ≡ true }
    ensures { result ≡ stepped way h }
{
    steps(way, 1, h)
}
