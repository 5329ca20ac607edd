// Numbers, bits and the check of a frame, as bytes on the line carry them; bytes copied and
// filled in; and numbers as text.
#![tactic(auto)]

mod bits;
mod checksum;
mod copy;
mod figures;
mod numbers;

pub use bits::has_bit;
pub use checksum::checksum_from;
pub use copy::{copy_into, fill};
pub use figures::{DECIMAL_ROOM, Digits, decimal, hex};
pub use numbers::{
    decode_u16_be, decode_u24_be, decode_u32_be, encode_u16_be, encode_u24_be, encode_u32_be,
};
