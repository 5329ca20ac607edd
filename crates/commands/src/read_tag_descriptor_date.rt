// Command 13 (commands/read_tag_descriptor_date.rs), its text in both modes: the request, which carries no
// data, and the response, which has command 18's layout; and the same from the device's side (document 02, 1/12).
ghost use Rattle.std.specs.Prelude.{◌≡◌, []};
ghost use Rattle.refusal.specs.Outcome.{ends, reply_of, wrote};
ghost use Rattle.framing.specs.Payload.{judgement_of, typed_in, typed_of};
ghost use Rattle.framing.specs.Requests.{asked, asked_of, no_data};
ghost use Rattle.commands.specs.Responses.{tag_descriptor_date_responded};
ghost use Rattle.commands.specs.TagDescriptorDate.{fields_of, fields_read, command13};

use crate::data_of;
use crate::tag_descriptor_date::{
    TagDescriptorDate, read_layout, read_texts, write_texts_and_date,
};
use framing::{Frame, request_verdict};
use packed_string::Mode;
use refusal::Refusal;
use types::FrameType;
use types::consts::commands::READ_TAG_DESCRIPTOR_DATE;

// A request carries no data.
pub fn encode_data(buf: &mut [u8]) -> Result<usize, Refusal>
    ensures { ends (reply_of result) buf.new ≡ wrote [] buf.old }
{
    Ok(0)
}

pub fn decode_data(mode: Mode, data: &[u8]) -> Result<TagDescriptorDate, Refusal>
    ensures { fields_of result ≡ fields_read mode «data».now }
{
    read_layout(mode, data)
}

// The response that a frame carries, or why it carries none.
pub fn read_frame(
    mode: Mode,
    frame_type: FrameType,
    command: u8,
    data: &[u8],
) -> Result<TagDescriptorDate, Refusal>
    ensures { fields_of result ≡ typed_in (command13 mode) frame_type command «data».now }
{
    read_texts(READ_TAG_DESCRIPTOR_DATE, mode, frame_type, command, data)
}

// The same of a frame that a decoder found.
#[tactic(auto, unfolding(framing::specs::Payload::typed_of))]
pub fn read_response(mode: Mode, frame: Frame) -> Result<TagDescriptorDate, Refusal>
    ensures { fields_of result ≡ typed_of (command13 mode) frame }
{
    read_frame(mode, frame.frame_type, frame.command, data_of(&frame))
}

// Whether a frame is this request, as a device reads it. There are no data to look at.
pub fn read_request_frame(frame_type: FrameType, command: u8) -> Result<(), Refusal>
    ensures { judgement_of result ≡ asked 13 frame_type command }
{
    request_verdict(READ_TAG_DESCRIPTOR_DATE, frame_type, command)
}

// The same of a frame that a decoder found.
#[tactic(auto, using(framing::proofs::Requests::asks_alone))]
pub fn read_request(frame: Frame) -> Result<(), Refusal>
    ensures { judgement_of result ≡ asked_of (no_data 13) frame }
{
    read_request_frame(frame.frame_type, frame.command)
}

// Writes a device's response: the two status bytes, the tag, the descriptor and the date.
pub fn encode_response(
    mode: Mode,
    first: u8,
    second: u8,
    texts: TagDescriptorDate,
    payload: &mut [u8],
) -> Result<usize, Refusal>
    ensures { ends (reply_of result) payload.new ≡ tag_descriptor_date_responded mode first second texts.tag texts.descriptor texts.day texts.month texts.year payload.old }
{
    write_texts_and_date(mode, first, second, texts, payload)
}
