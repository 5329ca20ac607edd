// Command 11 (commands/read_unique_id_by_tag.rs), its text in both modes: the request, the response,
// which is an identity, and the response straight from a frame; and the same from the device's side (document
// 02, 1/12).
ghost use Rattle.std.specs.Prelude.{◌≡◌};
ghost use Rattle.refusal.specs.Outcome.{ends, reply_of};
ghost use Rattle.framing.specs.Payload.{typed_in, typed_of};
ghost use Rattle.framing.specs.Requests.{asked_in, asked_of};
ghost use Rattle.commands.specs.Identity.{identified_of, identity};
ghost use Rattle.packed_string.specs.Modes.{unpacked_text};
ghost use Rattle.commands.specs.Tag.{tag_requested, command11, tagged_of, tag_read, request11};
ghost use Rattle.commands.specs.Responses.{identity_responded};

use crate::data_of;
use crate::identity::{DeviceIdentity, read_identity, write_identity};
use crate::tag_descriptor_date::{TAG_SIZE, unpacked};
use framing::{Frame, request_verdict};
use packed_string::{Mode, encode_in};
use refusal::Refusal;
use response::TAG_LENGTH;
use types::FrameType;
use types::consts::commands::READ_UNIQUE_ID_BY_TAG;

#[derive(Clone, Copy, Debug, PartialEq, Eq)]
pub struct ReadUniqueIdByTagRequest {
    pub tag: [u8; TAG_LENGTH],
}

// Writes the tag, packed.
pub fn encode_data(mode: Mode, tag: [u8; TAG_LENGTH], buf: &mut [u8]) -> Result<usize, Refusal>
    ensures { ends (reply_of result) buf.new ≡ tag_requested mode tag buf.old }
{
    if buf.len() < TAG_SIZE {
        return Err(Refusal::BufferTooSmall);
    }
    encode_in(mode, &tag, &mut buf[..TAG_SIZE])
}

pub fn decode_data(data: &[u8]) -> Result<DeviceIdentity, Refusal>
    ensures { identified_of result ≡ identity «data».now }
{
    DeviceIdentity::decode(data)
}

// The characters of a packed tag.
pub fn decode_tag(mode: Mode, packed: [u8; TAG_SIZE]) -> [u8; TAG_LENGTH]
    ensures { result ≡ unpacked_text mode packed }
{
    unpacked(mode, &packed)
}

// The identity that a frame carries, or why it carries none.
pub fn read_frame(
    frame_type: FrameType,
    command: u8,
    data: &[u8],
) -> Result<DeviceIdentity, Refusal>
    ensures { identified_of result ≡ typed_in command11 frame_type command «data».now }
{
    read_identity(READ_UNIQUE_ID_BY_TAG, frame_type, command, data)
}

// The same of a frame that a decoder found.
#[tactic(auto, unfolding(framing::specs::Payload::typed_of))]
pub fn read_response(frame: Frame) -> Result<DeviceIdentity, Refusal>
    ensures { identified_of result ≡ typed_of command11 frame }
{
    read_frame(frame.frame_type, frame.command, data_of(&frame))
}

// Bytes past the packed tag are not looked at.
fn read_tag(mode: Mode, data: &[u8]) -> Result<ReadUniqueIdByTagRequest, Refusal>
    ensures { tagged_of result ≡ tag_read mode «data».now }
{
    if data.len() < TAG_SIZE {
        return Err(Refusal::BufferTooShort);
    }
    Ok(ReadUniqueIdByTagRequest {
        tag: unpacked(mode, &data[..TAG_SIZE]),
    })
}

// The tag that a request asks for, as a device reads it.
#[tactic(auto, unfolding(framing::specs::Requests::asked_in))]
pub fn read_request_frame(
    mode: Mode,
    frame_type: FrameType,
    command: u8,
    data: &[u8],
) -> Result<ReadUniqueIdByTagRequest, Refusal>
    ensures { tagged_of result ≡ asked_in (request11 mode) frame_type command «data».now }
{
    request_verdict(READ_UNIQUE_ID_BY_TAG, frame_type, command)?;
    read_tag(mode, data)
}

// The same of a frame that a decoder found.
#[tactic(auto, unfolding(framing::specs::Requests::asked_of))]
pub fn read_request(mode: Mode, frame: Frame) -> Result<ReadUniqueIdByTagRequest, Refusal>
    ensures { tagged_of result ≡ asked_of (request11 mode) frame }
{
    read_request_frame(mode, frame.frame_type, frame.command, data_of(&frame))
}

// Writes a device's response: the two status bytes and the identity.
pub fn encode_response(
    first: u8,
    second: u8,
    identity: DeviceIdentity,
    payload: &mut [u8],
) -> Result<usize, Refusal>
    ensures { ends (reply_of result) payload.new ≡ identity_responded first second identity payload.old }
{
    write_identity(first, second, identity, payload)
}
