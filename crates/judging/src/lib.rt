// What is tried of a grant that is checked: the input, and the grant's plain bytes. A check of one grant and
// whatever checks several are made of these parts.

#![tactic(auto)]

ghost use Rattle.std.specs.Prelude.{◌≡◌};
ghost use Rattle.refusal.specs.Reasons.{outcome_number};
ghost use Rattle.refusal.specs.Tries.{first};
ghost use Rattle.grant.specs.Grants.{verdict_number, verdict_contractor, verdict_right};
ghost use Rattle.judging.specs.Judging.{input_tries, asked_tries, standing_tries, judged_number, judged_contractor, judged_right};

use grant::{Grant, Verdict, contractor_in, count_in, is_grant, right_in, size_block_in};
use refusal::{Reason, require};
use rights::{covers, is_right, right_of, within_highest};
use roll::Entry;
use size_blocks::is_size_block;

// Settings, lengths, and the right and the size block that are asked for.
#[tactic(auto, unfolding(refusal::specs::Tries::first))]
pub fn try_input(
    n: usize,
    rounds: u32,
    lengths: bool,
    size_block: u32,
    right: u32,
) -> Result<(), Reason>
    ensures { outcome_number result ≡ first (input_tries n rounds lengths size_block right) }
{
    settings::try_settings(n, rounds)?;
    require(lengths, Reason::InputLength)?;
    require(is_right(right), Reason::UnknownRight)?;
    require(is_size_block(size_block), Reason::BlockZero)
}

// What was asked for: the size block, then a right that the grant's covers.
#[tactic(auto, unfolding(refusal::specs::Tries::first))]
pub fn try_asked(p: &[u8; 12], size_block: u32, right: u32) -> Result<(), Reason>
    ensures { outcome_number result ≡ first (asked_tries p.now size_block right) }
{
    require(size_block_in(p) == size_block, Reason::OtherBlock)?;
    require(covers(right_in(p), right), Reason::OtherRight)
}

// The contractor's standing, then that it is the one written in the grant, then that what is asked for is not above the highest right.
#[tactic(auto, unfolding(refusal::specs::Tries::first))]
pub fn try_standing(p: &[u8; 12], entry: Entry, right: u32) -> Result<(), Reason>
    ensures { outcome_number result ≡ first (standing_tries p.now «entry» right) }
{
    require(roll::is_in_standing(entry.count), Reason::NotInStanding)?;
    require(count_in(p) == entry.count, Reason::OtherCount)?;
    require(within_highest(right, entry.figure), Reason::AboveHighest)
}

// The verdict on a grant's plain bytes, where the roll has this entry for its contractor. The input has to be tried before: size block 0 is refused
// there, and not here.
#[tactic(auto, unfolding(refusal::specs::Tries::first, refusal::specs::Tries::answered, rights::specs::Rights::covers))]
pub fn judge(p: &[u8; 12], entry: Entry, size_block: u32, right: u32) -> Verdict
    ensures result_value { verdict_number result ≡ judged_number p.now «entry» size_block right }
    ensures contractor_value { verdict_contractor result ≡ judged_contractor p.now «entry» size_block right }
    ensures right_value { verdict_right result ≡ judged_right p.now «entry» size_block right }
{
    require(is_grant(p), Reason::NotAGrant)?;
    try_asked(p, size_block, right)?;
    try_standing(p, entry, right)?;
    Ok(Grant {
        contractor: contractor_in(p),
        right: right_of(right),
    })
}
