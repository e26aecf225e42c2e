// The settings of a page: two keys and a round count, tried in one place for every call that takes them.

#![tactic(auto)]

ghost use Rattle.std.specs.Prelude.{◌≡◌};
ghost use Rattle.refusal.specs.Reasons.{outcome_number};
ghost use Rattle.refusal.specs.Tries.{first};
ghost use Rattle.key_pairs.specs.KeyPairs.{are_pair, pair_tries};

use refusal::{Reason, require};

// Two keys of one length that are not equal.
#[tactic(auto, unfolding(crate::specs::KeyPairs::are_pair))]
fn are_pair(first_key: &[u8], second_key: &[u8]) -> bool
    ensures { result ≡ are_pair first_key.now second_key.now }
{
    sizes::is_key_length(first_key.len())
        && second_key.len() == first_key.len()
        && !byte_slices::same(first_key, second_key)
}

// The keys, then the round count.
#[tactic(auto, unfolding(refusal::specs::Tries::first))]
pub fn try_pair(first_key: &[u8], second_key: &[u8], rounds: u32) -> Result<(), Reason>
    ensures { outcome_number result ≡ first (pair_tries first_key.now second_key.now rounds) }
{
    require(are_pair(first_key, second_key), Reason::KeyLength)?;
    require(
        sizes::is_round_count(first_key.len(), rounds),
        Reason::RoundCount,
    )
}
