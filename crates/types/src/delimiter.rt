// The delimiter, read and made in one place (decode.rs reads it, encode.rs makes it).
ghost use Rattle.std.specs.Prelude.{◌≡◌};
ghost use Rattle.types.specs.Delimiter.{type_number, short_delimiter, delimiter, delimiter_of};

use crate::consts::delimiter::{
    BURST_LONG, BURST_SHORT, LONG_ADDRESS_BIT, REQUEST_LONG, REQUEST_SHORT, RESPONSE_LONG,
    RESPONSE_SHORT,
};

#[derive(Clone, Copy, Debug, PartialEq, Eq)]
pub enum FrameType {
    Request,
    Response,
    Burst,
}

impl FrameType {
    // The number that a C host's block and record give it. (`From` would not say which of its numbers is meant.)
    pub fn number(self) -> u8
        ensures { result ≡ type_number self }
    {
        match self {
            FrameType::Request => 0,
            FrameType::Response => 1,
            FrameType::Burst => 2,
        }
    }
}

// What a delimiter says of the frame that it opens.
#[derive(Clone, Copy, Debug, PartialEq, Eq)]
pub struct Opening {
    pub frame_type: FrameType,
    pub is_long: bool,
}

fn short_delimiter(frame_type: FrameType) -> u8
    ensures { result ≡ short_delimiter frame_type }
{
    match frame_type {
        FrameType::Request => REQUEST_SHORT,
        FrameType::Response => RESPONSE_SHORT,
        FrameType::Burst => BURST_SHORT,
    }
}

pub fn delimiter_byte(opening: Opening) -> u8
    ensures { result ≡ delimiter opening }
{
    let frame_type = opening.frame_type;
    let short = short_delimiter(frame_type);
    if opening.is_long {
        return LONG_ADDRESS_BIT + short;
    }
    short
}

// What a byte read in a delimiter's place says, if it is one. The definition reads a byte leniently, makes it again and
// compares. Here the six are tried: so the dump takes three instructions less to a byte.
pub fn read_delimiter(byte: u8) -> Option<Opening>
    ensures { result ≡ delimiter_of byte }
{
    let (frame_type, is_long) = match byte {
        REQUEST_SHORT => (FrameType::Request, false),
        REQUEST_LONG => (FrameType::Request, true),
        RESPONSE_SHORT => (FrameType::Response, false),
        RESPONSE_LONG => (FrameType::Response, true),
        BURST_SHORT => (FrameType::Burst, false),
        BURST_LONG => (FrameType::Burst, true),
        _ => return None,
    };
    Some(Opening {
        frame_type,
        is_long,
    })
}
