// What a grant allows, what is asked for, and the highest right that a contractor has on the roll.

#![tactic(auto)]

ghost use Rattle.std.specs.Prelude.{◌≡◌, true};
ghost use Rattle.rights.specs.Rights.{right_number, is_right, covers, highest, within_highest};

// Overwriting includes reading.
#[derive(Clone, Copy, Debug, PartialEq, Eq)]
pub enum Right {
    Reading,
    Overwriting,
}

impl From<Right> for u32 {
    ghost from_gives = { λ right n. n ≡ right_number right };

    fn from(right: Right) -> u32 {
        match right {
            Right::Reading => 1,
            Right::Overwriting => 2,
        }
    }
}

pub fn is_right(r: u32) -> bool
    ensures { result ≡ is_right r }
{
    r == 1 || r == 2
}

// The right of a number that is a right's.
// Kept: no `TryFrom`, since it cannot fail where it is called, and a function that could not fail still can't.
pub fn right_of(r: u32) -> Right
    requires { is_right r ≡ true }
    ensures { right_number result ≡ r }
{
    if r == 1 {
        Right::Reading
    } else {
        Right::Overwriting
    }
}

// Whether a grant's right covers the one asked for.
#[tactic(auto, unfolding(crate::specs::Rights::covers))]
pub fn covers(granted: u32, asked: u32) -> bool
    ensures { result ≡ covers granted asked }
{
    (asked == 1 && is_right(granted)) || (asked == 2 && granted == 2)
}

// The highest right that a figure on the roll stands for: whatever it is, it stands for one.
#[tactic(auto, unfolding(crate::specs::Rights::highest))]
pub fn highest(figure: u8) -> u32
    ensures { result ≡ highest figure }
{
    if figure == 2 { 2 } else { 1 }
}

// Whether the right asked for is not above the highest.
#[tactic(auto, unfolding(crate::specs::Rights::within_highest))]
pub fn within_highest(asked: u32, figure: u8) -> bool
    ensures { result ≡ within_highest asked figure }
{
    asked <= highest(figure)
}
