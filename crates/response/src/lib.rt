// A device's responses (document 02, 1/12): fields by value, a writer that puts them in turn into the payload
// that it was lent, and whole responses, of which all fields are written or none.
#![tactic(auto)]

mod field;
mod sizes;
mod whole;
mod writer;

pub use field::{Field, Kind, put_field};
pub use sizes::{
    DESCRIPTOR_LENGTH, GROUP_SIZE, GROUPS_END, IDENTITY_SIZE, MAX_DEVICE_VARS, TAG_LENGTH,
};
pub use whole::write_response;
pub use writer::{MAX_FIELDS, ResponseFields, ResponseWriter};
