// A grant: its twelve plain bytes, and what a check of one answers.

#![tactic(auto)]

mod plain;

pub use plain::{contractor_in, count_in, is_grant, plain_grant, right_in, size_block_in};
use refusal::Reason;
use rights::Right;

// What an accepted check answers with: the grant's contractor, and the right that was asked for.
#[derive(Clone, Copy, Debug, PartialEq, Eq)]
pub struct Grant {
    pub contractor: u32,
    pub right: Right,
}

// What a check answers.
pub type Verdict = Result<Grant, Reason>;
