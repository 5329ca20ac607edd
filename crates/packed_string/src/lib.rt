// Packed text: in the mode of the Rust's packed_string.rs here, in the mode of the HART documents (ADDED),
// which the Rust does not have, in standard_text, and in the mode that a caller names in text_in_mode. Below
// them are one group and groups at their places.
#![tactic(auto)]

mod bad_character;
mod standard_text;
mod text_group;
mod text_groups;
mod text_in_mode;

ghost use Rattle.std.specs.Prelude.{◌≡◌, [], ◌∷◌};
ghost use Rattle.refusal.specs.Outcome.{done, ends};
ghost use Rattle.packed_string.specs.Text.{crate_packed, crate_unpacked};

pub use bad_character::bad_place;
pub use standard_text::{decode_standard, encode_standard};
pub use text_group::Mode;
use text_groups::{pack, unpack};
pub use text_in_mode::{bad_place_in, decode_in, encode_in};

// Packs as many whole groups of the text as fit and tells how many bytes it wrote.
pub fn encode_packed(src: &[u8], dst: &mut [u8]) -> usize
    ensures { ends (done (result ∷ [])) dst.new ≡ crate_packed src.now dst.old }
{
    pack(Mode::Crate, src, dst) * 3
}

// Unpacks as many whole groups as there are and fit and tells how many characters it wrote.
pub fn decode_packed(src: &[u8], dst: &mut [u8]) -> usize
    ensures { ends (done (result ∷ [])) dst.new ≡ crate_unpacked src.now dst.old }
{
    unpack(Mode::Crate, src, dst) * 4
}
