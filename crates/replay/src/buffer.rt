// A buffer that a call is lent.
use crate::bytes::{Bytes, Full};
use crate::given::NoCase;
use crate::shown::HexOrDash;
use std::fmt;

// No case has a longer one.
const ROOM_MAX: usize = 1024;

#[derive(Drop)]
pub(crate) struct Buffer(Bytes<ROOM_MAX>);

impl From<Full> for NoCase {
    fn from(_: Full) -> NoCase {
        NoCase
    }
}

impl Buffer {
    // Of so many bytes. One that a call leaves alone can be told by its place.
    pub(crate) fn new(length: usize) -> Result<Buffer, NoCase> {
        let mut bytes = Bytes::zeroed(length)?;
        for (place, byte) in bytes.as_mut_slice().iter_mut().enumerate() {
            *byte = 0xA0 | (place % 16) as u8;
        }
        Ok(Buffer(bytes))
    }

    // Of these bytes.
    pub(crate) fn holding(held: &[u8]) -> Result<Buffer, NoCase> {
        let mut bytes = Bytes::new();
        bytes.extend(held)?;
        Ok(Buffer(bytes))
    }

    pub(crate) fn lent(&mut self) -> &mut [u8] {
        self.0.as_mut_slice()
    }
}

impl fmt::Display for Buffer {
    fn fmt<W: fmt::Write>(&self, f: &mut fmt::Formatter<W>) -> fmt::Result {
        write!(f, "{}", HexOrDash(self.0.as_slice()))
    }
}
