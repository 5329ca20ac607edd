// What the fields of requests and responses measure: document 01, 'Commands'. Text is counted in characters.
use types::consts::MAX_DATA_LENGTH;

pub const TAG_LENGTH: usize = 8;

pub const DESCRIPTOR_LENGTH: usize = 16;

pub const IDENTITY_SIZE: usize = 12;

// A device variable's code, class, unit, float and status.
pub const GROUP_SIZE: usize = 8;

// A response's groups are bounded by this, and a request's codes.
pub const MAX_DEVICE_VARS: usize = 8;

// The two status bytes, the extended status and eight groups: the longest response there is.
pub const GROUPS_END: usize = 2 + 1 + MAX_DEVICE_VARS * GROUP_SIZE;

// The longest field is a descriptor.
pub(crate) const FIELD_ROOM: usize = DESCRIPTOR_LENGTH;

pub(crate) const DATA_ROOM: usize = MAX_DATA_LENGTH;
