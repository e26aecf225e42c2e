// Why a call refuses: the reasons by name, their numbers, and one try of a call. A call answers with a Result: what it makes, or a reason.

#![tactic(auto)]

ghost use Rattle.std.specs.Prelude.{◌≡◌};
ghost use Rattle.refusal.specs.Reasons.{reason_number, outcome_number};
ghost use Rattle.refusal.specs.Required.{required};

// Document 01's reasons found in the input and in the state, and those that requests add.
#[derive(Clone, Copy, Debug, PartialEq, Eq)]
pub enum Reason {
    KeyLength,
    RoundCount,
    InputLength,
    OutputTooShort,
    StageOrList,
    Contractor,
    UnknownRight,
    NotAGrant,
    OtherBlock,
    OtherRight,
    NotAPage,
    PayloadTooLong,
    CheckDiffers,
    BlockZero,
    NotInStanding,
    InStanding,
    CountSpent,
    OtherCount,
    BrokenHolder,
    AboveHighest,
}

// Document 01's number of a reason.
impl From<Reason> for u32 {
    ghost from_gives = { λ reason n. n ≡ reason_number reason };

    fn from(reason: Reason) -> u32 {
        match reason {
            Reason::KeyLength => 1,
            Reason::RoundCount => 2,
            Reason::InputLength => 3,
            Reason::OutputTooShort => 4,
            Reason::StageOrList => 5,
            Reason::Contractor => 6,
            Reason::UnknownRight => 7,
            Reason::NotAGrant => 8,
            Reason::OtherBlock => 9,
            Reason::OtherRight => 10,
            Reason::NotAPage => 11,
            Reason::PayloadTooLong => 12,
            Reason::CheckDiffers => 13,
            Reason::BlockZero => 14,
            Reason::NotInStanding => 20,
            Reason::InStanding => 21,
            Reason::CountSpent => 22,
            Reason::OtherCount => 23,
            Reason::BrokenHolder => 24,
            Reason::AboveHighest => 25,
        }
    }
}

// The number of a refusal, or 0.
pub fn outcome_number(outcome: Result<(), Reason>) -> u32
    ensures { result ≡ outcome_number outcome }
{
    match outcome {
        Ok(()) => 0,
        Err(reason) => u32::from(reason),
    }
}

// One try: the call goes on where the test passes, and else refuses for this reason.
pub fn require(passes: bool, reason: Reason) -> Result<(), Reason>
    ensures { result ≡ required passes reason }
{
    if passes { Ok(()) } else { Err(reason) }
}
