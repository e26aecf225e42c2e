// Settings: a key's length and a round count, tried in one place for every call that takes them.

#![tactic(auto)]

ghost use Rattle.std.specs.Prelude.{◌≡◌};
ghost use Rattle.refusal.specs.Reasons.{outcome_number};
ghost use Rattle.refusal.specs.Tries.{first};
ghost use Rattle.settings.specs.Settings.{settings_tries};

use refusal::{Reason, require};

// A key of n bytes, then the round count.
#[tactic(auto, unfolding(refusal::specs::Tries::first))]
pub fn try_settings(n: usize, rounds: u32) -> Result<(), Reason>
    ensures { outcome_number result ≡ first (settings_tries n rounds) }
{
    require(sizes::is_key_length(n), Reason::KeyLength)?;
    require(sizes::is_round_count(n, rounds), Reason::RoundCount)
}
