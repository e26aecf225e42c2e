// A holder walked to a stage.

#![tactic(auto)]

ghost use Rattle.std.specs.Prelude.{◌≡◌, ◌*◌, ◌≤◌};
ghost use Rattle.std.specs.Result.{result_unwrap_or};
ghost use Rattle.refusal.specs.Reasons.{outcome_number};
ghost use Rattle.holder.specs.Holder.{t_held};
ghost use Rattle.holder_walk.specs.Walk.{walk_number, walk_holder, walk_steps, walk_way, stayed};

use holder::{Holder, Way, is_whole, steps};
use refusal::{Reason, require};

// What a walk answers: the holder, the steps taken and their direction.
#[derive(Clone, Copy, Debug, PartialEq, Eq)]
pub struct Walked {
    pub holder: Holder,
    pub steps: usize,
    pub way: Way,
}

// A walk to stage d, the shorter way, with the steps that it took and their direction.
#[tactic(auto, using(holder::proofs::Whole::number_asks), unfolding(refusal::specs::Tries::first))]
pub fn walk(h: Holder, d: usize) -> Result<Walked, Reason>
    ensures outcome_value { outcome_number result ≡ walk_number h d }
    ensures holder_value { (result_unwrap_or result (stayed h)).holder ≡ walk_holder h d }
    ensures steps_value { (result_unwrap_or result (stayed h)).steps ≡ walk_steps h d }
    ensures way_value { (result_unwrap_or result (stayed h)).way ≡ walk_way h d }
    ensures steps_bound { (result_unwrap_or result (stayed h)).steps ≤ 3 * t_held h }
{
    let turn = sizes::turn_of_key(h.length);
    require(is_whole(h), Reason::BrokenHolder)?;
    require(d < turn, Reason::StageOrList)?;
    let forward = (d + (turn - h.number)) % turn;
    let (way, count) = if forward <= turn / 2 {
        (Way::Forward, forward)
    } else {
        (Way::Back, turn - forward)
    };
    Ok(Walked {
        holder: steps(way, count, h),
        steps: count,
        way,
    })
}
