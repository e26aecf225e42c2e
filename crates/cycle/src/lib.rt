// The stages as a cycle: the number after another and the one before it, around the turn of 6t stages, and a step undone. A stage of 2t columns
// stands in 24 bytes and is stepped there; what stands past it stays.

#![tactic(auto)]

ghost use Rattle.std.specs.Prelude.{◌≡◌, ◌++◌, ◌*◌, ◌<◌, drop};
ghost use Rattle.sizes.specs.Sizes.{turn, Sized};
ghost use Rattle.stages.specs.Stages.{stage_before};
ghost use Rattle.cycle.specs.Cycle.{following, preceding};

// The number after s around the turn.
#[tactic(auto, unfolding(crate::specs::Cycle::following))]
pub fn number_after(t: usize, s: usize) -> usize
    requires { Sized t × (s < turn t) }
    ensures { result ≡ following t s }
{
    if s + 1 < sizes::turn_for(t) { s + 1 } else { 0 }
}

// The number before s around the turn.
#[tactic(auto, using(crate::proofs::Numbers::preceding_back, crate::proofs::Numbers::preceding_first))]
pub fn number_before(t: usize, s: usize) -> usize
    requires { Sized t × (s < turn t) }
    ensures { result ≡ preceding t s }
{
    if 0 < s { s - 1 } else { sizes::turn_for(t) - 1 }
}

// The stage before step s, in the place of the stage after it.
pub fn previous_stage(t: usize, s: usize, k: &mut [u8; 24])
    requires { Sized t }
    ensures { k.new ≡ stage_before t s k.old ++ drop (6 * t) k.old }
{
    inverse::inverse_step(t, k);
    constants::add_constant(t, s, k);
}
