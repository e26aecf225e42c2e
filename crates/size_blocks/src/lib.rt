// Which size blocks may be asked for.

#![tactic(auto)]

ghost use Rattle.std.specs.Prelude.{◌≡◌};
ghost use Rattle.size_blocks.specs.SizeBlocks.{is_size_block};

// 0 was a practice block, and blank forms send it by accident.
#[tactic(auto, unfolding(crate::specs::SizeBlocks::is_size_block))]
pub fn is_size_block(size_block: u32) -> bool
    ensures { result ≡ is_size_block size_block }
{
    size_block != 0
}
