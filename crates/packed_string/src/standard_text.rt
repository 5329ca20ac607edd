// Packed text in the standard mode (ADDED): the whole text or bytes, or a refusal.
ghost use Rattle.std.specs.Prelude.{◌≡◌};
ghost use Rattle.refusal.specs.Outcome.{ends, reply_of};
ghost use Rattle.packed_string.specs.Standard.{standard_packed, standard_unpacked};

use crate::bad_character::first_bad;
use crate::text_group::Mode;
use crate::text_groups::{pack, unpack};
use refusal::Refusal;

// Packs the whole text, or nothing.
#[tactic(auto, unfolding(crate::specs::Standard::standard_packed))]
pub fn encode_standard(src: &[u8], dst: &mut [u8]) -> Result<usize, Refusal>
    ensures { ends (reply_of result) dst.new ≡ standard_packed src.now dst.old }
{
    let length = src.len();
    // four characters for each group that fits
    if dst.len() / 3 * 4 < length {
        return Err(Refusal::BufferTooSmall);
    }
    if let Some(place) = first_bad(src) {
        return Err(Refusal::BadCharacter(place));
    }
    Ok(pack(Mode::Standard, src, dst) * 3)
}

// Unpacks all the bytes, or none.
#[tactic(auto, unfolding(crate::specs::Standard::standard_unpacked))]
pub fn decode_standard(src: &[u8], dst: &mut [u8]) -> Result<usize, Refusal>
    ensures { ends (reply_of result) dst.new ≡ standard_unpacked src.now dst.old }
{
    let length = src.len();
    if length % 3 != 0 {
        return Err(Refusal::BufferTooShort);
    }
    if dst.len() / 4 < length / 3 {
        return Err(Refusal::BufferTooSmall);
    }
    Ok(unpack(Mode::Standard, src, dst) * 4)
}
