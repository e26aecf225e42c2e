// Holders from a key: one at stage 0, and one at any stage, given straight.

#![tactic(auto)]

ghost use Rattle.std.specs.Prelude.{◌≡◌, true, ◌<◌, length};
ghost use Rattle.std.specs.Result.{result_unwrap_or};
ghost use Rattle.refusal.specs.Reasons.{outcome_number};
ghost use Rattle.refusal.specs.Tries.{first};
ghost use Rattle.sizes.specs.Sizes.{key_length, t_of, turn};
ghost use Rattle.stages.specs.Columns.{padded};
ghost use Rattle.stages.specs.Stages.{stage};
ghost use Rattle.holder.specs.Holder.{holder_at, blank};
ghost use Rattle.holder_from_key.specs.FromKey.{make_number, made_holder, straight_tries, straight_number, straight_holder};

use holder::Holder;
use refusal::{Reason, require};

// A key's stage n: 24 bytes, with zeros past the key's length.
pub fn stage_bytes(key: &[u8], n: usize) -> [u8; 24]
    requires { (key_length (length key.now) ≡ true) × (n < turn (t_of (length key.now))) }
    ensures { result ≡ padded (stage (t_of (length key.now)) key.now n) }
{
    let t = key.len() / 6;
    let mut k = schedule::stage_of_key(key);
    for s in 0..n {
        schedule::next_stage(t, s + 1, &mut k);
    }
    k
}

// The holder of a key at its stage n.
fn stage_at(key: &[u8], n: usize) -> Holder
    requires { (key_length (length key.now) ≡ true) × (n < turn (t_of (length key.now))) }
    ensures { result ≡ holder_at key.now n }
{
    Holder {
        length: key.len(),
        number: n,
        bytes: stage_bytes(key, n),
    }
}

// A holder of a key at stage 0.
#[tactic(auto, unfolding(refusal::specs::Tries::first, refusal::specs::Tries::answered, crate::specs::FromKey::made_holder))]
pub fn make(key: &[u8]) -> Result<Holder, Reason>
    ensures outcome_value { outcome_number result ≡ make_number key.now }
    ensures holder_value { result_unwrap_or result blank ≡ made_holder key.now }
{
    require(sizes::is_key_length(key.len()), Reason::KeyLength)?;
    Ok(stage_at(key, 0))
}

// A key of so many bytes, then the number of a stage.
#[tactic(auto, unfolding(refusal::specs::Tries::first))]
pub fn try_straight(length: usize, n: usize) -> Result<(), Reason>
    ensures { outcome_number result ≡ first (straight_tries length n) }
{
    require(sizes::is_key_length(length), Reason::KeyLength)?;
    require(n < sizes::turn_of_key(length), Reason::StageOrList)
}

// A stage straight from the key and a number, as a holder.
#[tactic(auto, unfolding(refusal::specs::Tries::first, refusal::specs::Tries::answered, crate::specs::FromKey::straight_holder))]
pub fn straight(key: &[u8], n: usize) -> Result<Holder, Reason>
    ensures outcome_value { outcome_number result ≡ straight_number key.now n }
    ensures holder_value { result_unwrap_or result blank ≡ straight_holder key.now n }
{
    try_straight(key.len(), n)?;
    Ok(stage_at(key, n))
}
