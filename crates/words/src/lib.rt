// Four bytes in a word of 32 bits, all doubled at once.

#![tactic(auto)]

ghost use Rattle.std.specs.Prelude.{◌≡◌};
ghost use Rattle.words.specs.Words.{doubled};

// Twice each byte: the digits that stay in their bytes are shifted. Where a digit would leave its byte, that byte gets 4D instead:
// 80 less 1 is 7F, and the mask takes 4D of it.
pub fn double_bytes(w: u32) -> u32
    ensures { result ≡ doubled w }
{
    let leaving = w & 0x80808080;
    let staying = w ^ leaving;
    (staying << 1) ^ ((leaving - (leaving >> 7)) & 0x4D4D4D4D)
}
