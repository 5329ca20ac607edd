// Command 18 (commands/write_tag_descriptor_date.rs), its text in both modes: the request, the
// response, which has the same layout, and the response straight from a frame; and the same from the device's
// side (document 02, 1/12).
ghost use Rattle.std.specs.Prelude.{◌≡◌};
ghost use Rattle.refusal.specs.Outcome.{ends, reply_of};
ghost use Rattle.framing.specs.Payload.{typed_in, typed_of};
ghost use Rattle.framing.specs.Requests.{asked_in, asked_of};
ghost use Rattle.commands.specs.Responses.{tag_descriptor_date_responded};
ghost use Rattle.commands.specs.TagDescriptorDate.{tag_descriptor_date_requested, fields_of, fields_read, command18};

use crate::data_of;
use crate::tag_descriptor_date::{
    LAYOUT_SIZE, TagDescriptorDate, bad_place_in_texts, read_layout, read_texts, write_layout,
    write_texts_and_date,
};
use framing::{Frame, request_verdict};
use packed_string::Mode;
use refusal::Refusal;
use types::FrameType;
use types::consts::commands::WRITE_TAG_DESCRIPTOR_DATE;

// Every character is looked at before the first byte is written.
pub fn encode_data(mode: Mode, texts: TagDescriptorDate, buf: &mut [u8]) -> Result<usize, Refusal>
    ensures { ends (reply_of result) buf.new ≡ tag_descriptor_date_requested mode texts.tag texts.descriptor texts.day texts.month texts.year buf.old }
{
    if buf.len() < LAYOUT_SIZE {
        return Err(Refusal::BufferTooSmall);
    }
    if let Some(place) = bad_place_in_texts(mode, texts) {
        return Err(Refusal::BadCharacter(place));
    }
    write_layout(mode, texts, buf);
    Ok(LAYOUT_SIZE)
}

pub fn decode_data(mode: Mode, data: &[u8]) -> Result<TagDescriptorDate, Refusal>
    ensures { fields_of result ≡ fields_read mode «data».now }
{
    read_layout(mode, data)
}

// The response that a frame carries, or why it carries none.
pub fn read_frame(
    mode: Mode,
    frame_type: FrameType,
    command: u8,
    data: &[u8],
) -> Result<TagDescriptorDate, Refusal>
    ensures { fields_of result ≡ typed_in (command18 mode) frame_type command «data».now }
{
    read_texts(WRITE_TAG_DESCRIPTOR_DATE, mode, frame_type, command, data)
}

// The same of a frame that a decoder found.
#[tactic(auto, unfolding(framing::specs::Payload::typed_of))]
pub fn read_response(mode: Mode, frame: Frame) -> Result<TagDescriptorDate, Refusal>
    ensures { fields_of result ≡ typed_of (command18 mode) frame }
{
    read_frame(mode, frame.frame_type, frame.command, data_of(&frame))
}

// The fields that a request has, as a device reads them.
#[tactic(auto, unfolding(framing::specs::Requests::asked_in))]
pub fn read_request_frame(
    mode: Mode,
    frame_type: FrameType,
    command: u8,
    data: &[u8],
) -> Result<TagDescriptorDate, Refusal>
    ensures { fields_of result ≡ asked_in (command18 mode) frame_type command «data».now }
{
    request_verdict(WRITE_TAG_DESCRIPTOR_DATE, frame_type, command)?;
    read_layout(mode, data)
}

// The same of a frame that a decoder found.
#[tactic(auto, unfolding(framing::specs::Requests::asked_of))]
pub fn read_request(mode: Mode, frame: Frame) -> Result<TagDescriptorDate, Refusal>
    ensures { fields_of result ≡ asked_of (command18 mode) frame }
{
    read_request_frame(mode, frame.frame_type, frame.command, data_of(&frame))
}

// Writes a device's response: the two status bytes and the fields as they were written.
pub fn encode_response(
    mode: Mode,
    first: u8,
    second: u8,
    texts: TagDescriptorDate,
    payload: &mut [u8],
) -> Result<usize, Refusal>
    ensures { ends (reply_of result) payload.new ≡ tag_descriptor_date_responded mode first second texts.tag texts.descriptor texts.day texts.month texts.year payload.old }
{
    write_texts_and_date(mode, first, second, texts, payload)
}
