// Checking a grant on a roll, however it is held: the input tried, the grant opened, and the verdict on its plain bytes.

#![tactic(auto)]

ghost use Rattle.std.specs.Prelude.{◌≡◌, true, length};
ghost use Rattle.refusal.specs.Tries.{first, answered};
ghost use Rattle.list_rounds.specs.ListRounds.{list_length};
ghost use Rattle.engine.specs.Engine.{engine_block};
ghost use Rattle.cipher.specs.ForProver.{Runnable};
ghost use Rattle.grant.specs.Grants.{contractor_in, verdict_number, verdict_contractor, verdict_right};
ghost use Rattle.checking.specs.Checking.{opened_grant, check_tries_on, check_number, check_contractor, check_right};

use grant::Verdict;
use key_lists::Direction;
use roll::{AsRoll, Roll};

// A grant's plain bytes.
#[tactic(auto, unfolding(cipher::specs::Cipher::cipher_block, crate::specs::Checking::opened_grant))]
pub fn open(key: &[u8], rounds: u32, grant: &[u8]) -> [u8; 12]
    requires { Runnable (length key.now) rounds (length grant.now) }
    ensures { result ≡ opened_grant key.now rounds grant.now }
{
    let mut plain = [0u8; 12];
    blocks::write_state(
        &mut plain,
        cipher::state_under(Direction::Deciphering, key, rounds, grant),
    );
    plain
}

// The same over a list that was prepared for deciphering, so that several grants take one.
#[tactic(auto, unfolding(engine::specs::Engine::engine_block))]
pub fn open_prepared(list: &[u8], grant: &[u8]) -> [u8; 12]
    requires { (list_length (length list.now) ≡ true) × (length grant.now ≡ 12) }
    ensures { result ≡ engine_block list.now grant.now }
{
    let mut plain = [0u8; 12];
    blocks::write_state(
        &mut plain,
        list_rounds::encipher_state(list, blocks::state_of(grant)),
    );
    plain
}

// Checks a grant for one size block and one right.
#[tactic(auto, unfolding(refusal::specs::Tries::first, refusal::specs::Tries::answered))]
pub fn check_on<R: AsRoll>(
    key: &[u8],
    rounds: u32,
    roll: &R,
    grant: &[u8],
    size_block: u32,
    right: u32,
) -> Verdict
    ensures result_value { verdict_number result
        ≡ first (check_tries_on (R.whole roll.now) key.now rounds (R.roll roll.now) grant.now size_block right) }
    ensures contractor_value { verdict_contractor result
        ≡ answered (first (check_tries_on (R.whole roll.now) key.now rounds (R.roll roll.now) grant.now size_block right))
        (contractor_in (opened_grant key.now rounds grant.now)) 0 }
    ensures right_value { verdict_right result
        ≡ answered (first (check_tries_on (R.whole roll.now) key.now rounds (R.roll roll.now) grant.now size_block right)) right 0 }
{
    let lengths = roll.is_whole() & (grant.len() == 12);
    judging::try_input(key.len(), rounds, lengths, size_block, right)?;
    let plain = open(key, rounds, grant);
    let entry = roll.entry(grant::contractor_in(&plain));
    judging::judge(&plain, entry, size_block, right)
}

// The same on a roll by value.
#[tactic(auto, unfolding(crate::specs::Checking::check_contractor, crate::specs::Checking::check_right))]
pub fn check(
    key: &[u8],
    rounds: u32,
    roll: Roll,
    grant: &[u8],
    size_block: u32,
    right: u32,
) -> Verdict
    ensures result_value { verdict_number result ≡ check_number key.now rounds roll grant.now size_block right }
    ensures contractor_value { verdict_contractor result ≡ check_contractor key.now rounds roll grant.now size_block right }
    ensures right_value { verdict_right result ≡ check_right key.now rounds roll grant.now size_block right }
{
    check_on(key, rounds, &roll, grant, size_block, right)
}
