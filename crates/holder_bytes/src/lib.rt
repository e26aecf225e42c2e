// A key holder as hosts keep and lend it: 26 bytes, read and written.

#![tactic(auto)]

ghost use Rattle.std.specs.Prelude.{◌≡◌, ◌++◌, length, drop, Ok};
ghost use Rattle.std.specs.Result.{result_unwrap_or};
ghost use Rattle.refusal.specs.Reasons.{outcome_number};
ghost use Rattle.refusal.specs.Tries.{written};
ghost use Rattle.holder.specs.declared.Holder.{Holder};
ghost use Rattle.holder.specs.Holder.{blank};
ghost use Rattle.holder_bytes.specs.HolderBytes.{holder_of, holder_bytes};
ghost use Rattle.holder_bytes.specs.ForProver.{Writable};

use holder::Holder;
use refusal::Reason;

// The bytes of a holder as hosts lend it.
pub const HOLDER_BYTES: usize = 26;

// The holder that the bytes hold; a blank one where they are not 26.
#[tactic(auto, using(crate::proofs::Lent::stage_read), unfolding(crate::specs::HolderBytes::holder_of))]
pub fn read(lent: &[u8]) -> Holder
    ensures { result ≡ holder_of lent.now }
{
    if lent.len() != HOLDER_BYTES {
        return Holder::default();
    }
    Holder {
        length: lent[0] as usize,
        number: lent[1] as usize,
        bytes: schedule::stage_of_key(&lent[2..]),
    }
}

// The bytes of a holder, put at the start of what is lent.
#[tactic(auto, using(crate::proofs::Lent::small), unfolding(crate::specs::HolderBytes::holder_bytes))]
pub fn write(out: &mut [u8], h: Holder)
    requires { Writable h out.old }
    ensures { out.new ≡ holder_bytes h ++ drop (length (holder_bytes h)) out.old }
{
    out[0] = h.length as u8;
    out[1] = h.number as u8;
    blocks::put_bytes(out, 2, &h.bytes);
}

// What a call on lent bytes answers: the holder is written there unless it was refused.
#[tactic(auto, unfolding(refusal::specs::Tries::written))]
pub fn answer(lent: &mut [u8], answer: Result<Holder, Reason>) -> Result<(), Reason>
    requires { (h : Holder) → answer ≡ Ok h → Writable h lent.old }
    ensures value { outcome_number result ≡ outcome_number answer }
    ensures lent_after { lent.new ≡ written (outcome_number answer) (holder_bytes (result_unwrap_or answer blank)) lent.old }
{
    write(lent, answer?);
    Ok(())
}
