// Checking a queue of grants on a roll, however it is held: one list is prepared, and every grant is opened over it and judged as if it were checked
// alone.

#![tactic(auto)]

ghost use Rattle.std.specs.Prelude.{◌≡◌, true, ◌++◌, length, drop};
ghost use Rattle.refusal.specs.Reasons.{outcome_number};
ghost use Rattle.refusal.specs.Tries.{first, written};
ghost use Rattle.rounds.specs.Rounds.{listed_from};
ghost use Rattle.list_rounds.specs.ListRounds.{list_length};
ghost use Rattle.queue_parts.specs.QueueParts.{grants_in, grant_at};
ghost use Rattle.queue_parts.specs.ForProver.{Answerable, number_over};
ghost use Rattle.queue.specs.Queue.{queue_answers, queue_tries_on, queue_number, queue_output};

use key_lists::Direction;
use refusal::Reason;
use roll::{AsRoll, Roll};

// The byte for one grant.
#[tactic(auto, unfolding(queue_parts::specs::ForProver::number_over))]
fn answer<R: AsRoll>(list: &[u8], roll: &R, grant: &[u8], size_block: u32, right: u32) -> u8
    requires { (list_length (length list.now) ≡ true) × (length grant.now ≡ 12) }
    ensures { result ≡ number_over list.now (R.roll roll.now) size_block right grant.now }
{
    let plain = checking::open_prepared(list, grant);
    let entry = roll.entry(grant::contractor_in(&plain));
    queue_parts::verdict_byte(judging::judge(&plain, entry, size_block, right))
}

// The bytes for all of them, grant by grant.
fn answer_all<R: AsRoll>(
    list: &[u8],
    roll: &R,
    grants: &[u8],
    size_block: u32,
    right: u32,
    answers: &mut [u8],
)
    requires { Answerable (length list.now) (length grants.now) (length answers.old) }
    ensures { answers.new
        ≡ listed_from 0 (grants_in (length grants.now))
        (λ i. number_over list.now (R.roll roll.now) size_block right (grant_at grants.now i))
        ++ drop (grants_in (length grants.now)) answers.old }
{
    for i in 0..grants.len() / 12 {
        let at = 12 * i;
        answers[i] = answer(list, roll, &grants[at..at + 12], size_block, right);
    }
}

// The bytes for a queue of which `queue_parts::try_queue` refuses nothing: one list is prepared, and every grant is answered over it. Public, so that
// must-fail edits of the C call can have it tried for one thing and answered for another.
#[tactic(auto, unfolding(refusal::specs::Tries::first))]
pub fn answer_queue<R: AsRoll>(
    key: &[u8],
    rounds: u32,
    roll: &R,
    grants: &[u8],
    size_block: u32,
    right: u32,
    answers: &mut [u8],
)
    requires { queue_number key.now rounds grants.now size_block right answers.old ≡ 0 }
    ensures { answers.new ≡ queue_output key.now rounds (R.roll roll.now) grants.now size_block right answers.old }
{
    let mut list = [0u8; 288];
    filling::fill_for(Direction::Deciphering, key, rounds as usize, &mut list);
    let used = 12 * (rounds as usize + 1);
    answer_all(&list[..used], roll, grants, size_block, right, answers);
}

// Checks a queue of grants for one size block and one right: a byte for each grant, 0 if it opens, else its refusal's number.
#[tactic(auto, unfolding(refusal::specs::Tries::first, refusal::specs::Tries::written, crate::specs::Queue::queue_output))]
pub fn check_on<R: AsRoll>(
    key: &[u8],
    rounds: u32,
    roll: &R,
    grants: &[u8],
    size_block: u32,
    right: u32,
    answers: &mut [u8],
) -> Result<(), Reason>
    ensures result_value { outcome_number result
        ≡ first (queue_tries_on (R.whole roll.now) key.now rounds grants.now size_block right answers.old) }
    ensures answers_after { answers.new
        ≡ written (first (queue_tries_on (R.whole roll.now) key.now rounds grants.now size_block right answers.old))
        (queue_answers key.now rounds (R.roll roll.now) grants.now size_block right) answers.old }
{
    let lengths = roll.is_whole() & queue_parts::is_queue_length(grants.len());
    queue_parts::try_queue(
        key.len(),
        rounds,
        lengths,
        grants.len(),
        answers.len(),
        size_block,
        right,
    )?;
    answer_queue(key, rounds, roll, grants, size_block, right, answers);
    Ok(())
}

// The same on a roll by value.
#[tactic(auto, unfolding(crate::specs::Queue::queue_output))]
pub fn check(
    key: &[u8],
    rounds: u32,
    roll: Roll,
    grants: &[u8],
    size_block: u32,
    right: u32,
    answers: &mut [u8],
) -> Result<(), Reason>
    ensures result_value { outcome_number result ≡ queue_number key.now rounds grants.now size_block right answers.old }
    ensures answers_after { answers.new
        ≡ queue_output key.now rounds roll grants.now size_block right answers.old }
{
    check_on(key, rounds, &roll, grants, size_block, right, answers)
}
