// The commands (commands/mod.rs), a module each under the Rust's name, and what a device's identity, a
// measured value and a tag with descriptor and date are. The modules have functions of one name, of a line or two each over
// what they share. A trait over them would be no plainer: two commands read one type, so that each would need a type of its
// own for its number, and each reading a second one for what its definition says. A response's two status bytes are two
// numbers throughout, as a frame's data handed over in parts are a type, a command and a slice: so callers have them.
#![tactic(auto)]

ghost use Rattle.std.specs.Prelude.{◌≡◌};
ghost use Rattle.framing.specs.Payload.{data_of};

mod identity;
pub mod read_device_id;
pub mod read_device_vars;
pub mod read_tag_descriptor_date;
pub mod read_unique_id_by_tag;
mod reading;
mod tag_descriptor_date;
pub mod write_tag_descriptor_date;

use framing::Frame;
pub use identity::DeviceIdentity;
pub use packed_string::Mode;
pub use reading::{Reading, value_of};
pub use tag_descriptor_date::TagDescriptorDate;

// A frame's own data: the first `length` bytes of its array, without the zeros behind them.
pub(crate) fn data_of(frame: &Frame) -> &[u8]
    ensures { result.now ≡ data_of frame.now }
{
    &frame.data[..frame.length as usize]
}
