// What a frame is made of (types.rs), and the numbers of consts.rs: the delimiter and the frame's type,
// addresses, the two status bytes of a response.
#![tactic(auto)]

mod address;
pub mod consts;
mod delimiter;
mod first;
mod status;

pub use address::{
    Address, HEAD_ROOM, LONG_ADDRESS_LENGTH, SHORT_ADDRESS_LENGTH, address_length, head_length,
};
pub use delimiter::{FrameType, Opening, delimiter_byte, read_delimiter};
pub use first::MasterRole;
pub use status::ResponseStatus;
