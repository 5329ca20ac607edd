// Packed text in a mode that the caller names, for the commands that carry text.
ghost use Rattle.std.specs.Prelude.{◌≡◌};
ghost use Rattle.refusal.specs.Outcome.{ends, reply_of};
ghost use Rattle.packed_string.specs.Modes.{packed_in, unpacked_in, bad_in};

use crate::bad_character::bad_place;
use crate::standard_text::{decode_standard, encode_standard};
use crate::text_group::Mode;
use crate::{decode_packed, encode_packed};
use refusal::Refusal;

#[tactic(auto, unfolding(crate::specs::Modes::packed_in))]
pub fn encode_in(mode: Mode, src: &[u8], dst: &mut [u8]) -> Result<usize, Refusal>
    ensures { ends (reply_of result) dst.new ≡ packed_in mode src.now dst.old }
{
    match mode {
        Mode::Crate => Ok(encode_packed(src, dst)),
        Mode::Standard => encode_standard(src, dst),
    }
}

// Into the caller, who mostly knows both sizes: then no loop is left of so few groups.
#[inline(always)]
#[tactic(auto, unfolding(crate::specs::Modes::unpacked_in))]
pub fn decode_in(mode: Mode, src: &[u8], dst: &mut [u8]) -> Result<usize, Refusal>
    ensures { ends (reply_of result) dst.new ≡ unpacked_in mode src.now dst.old }
{
    match mode {
        Mode::Crate => Ok(decode_packed(src, dst)),
        Mode::Standard => decode_standard(src, dst),
    }
}

// The place of the first character that the mode has no code for, or the text's length.
#[tactic(auto, unfolding(crate::specs::Modes::bad_in))]
pub fn bad_place_in(mode: Mode, src: &[u8]) -> usize
    ensures { result ≡ bad_in mode src.now }
{
    match mode {
        Mode::Crate => src.len(),
        Mode::Standard => bad_place(src),
    }
}
