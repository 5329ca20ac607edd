// A device, to show the other side of a conversation (document 02, 1/12): what it answers to a frame that it heard.
// It keeps nothing from one frame to the next, and answers whatever address it is asked by.
#![tactic(auto)]

mod own;

ghost use Rattle.std.specs.Prelude.{◌≡◌};
ghost use Rattle.refusal.specs.Outcome.{ends, reply_of};
ghost use Rattle.packed_string.specs.declared.text_group.Mode.TheVariants.{Standard};
ghost use Rattle.types.specs.declared.delimiter.FrameType.TheVariants.{Request, Response};
ghost use Rattle.line.specs.Pieces.{enough};
ghost use Rattle.line.specs.Encode.{encoded};
ghost use Rattle.framing.specs.Payload.{data_of};
ghost use Rattle.commands.specs.Tag.{tag_read};
ghost use Rattle.commands.specs.TagDescriptorDate.{fields_read};
ghost use Rattle.commands.specs.Variables.{codes_read};
ghost use Rattle.device.specs.Own.{own_tag};
ghost use Rattle.device.specs.Device.{status_alone, identifies, measures, recognizes, describes, rewrites, told_to, answer_to, answering};
ghost use Rattle.device.specs.Code.{spoken_by};

use commands::{
    Mode, read_device_id, read_device_vars, read_tag_descriptor_date, read_unique_id_by_tag,
    write_tag_descriptor_date,
};
use framing::{Frame, encode_frame};
use own::{own_identity, own_tag, own_texts, own_variable};
use refusal::Refusal;
use response::GROUPS_END;
use types::consts::MIN_PREAMBLE_COUNT;
use types::consts::commands::{
    READ_DEVICE_ID, READ_DEVICE_VARS_WITH_STATUS, READ_TAG_DESCRIPTOR_DATE, READ_UNIQUE_ID_BY_TAG,
    WRITE_TAG_DESCRIPTOR_DATE,
};
use types::{Address, FrameType};

// HART's response codes.
const TOO_FEW_BYTES: u8 = 5;

const NOT_IMPLEMENTED: u8 = 64;

// A response's bytes stand at its front: none has more.
type Payload = [u8; GROUPS_END];

// What a response's first bytes are, once they are written: this many of the payload, or none where there is no response.
fn tell_status(code: u8, payload: &mut Payload) -> Option<usize>
    ensures { spoken_by result payload.new ≡ status_alone code }
{
    payload[0] = code;
    payload[1] = 0;
    Some(2)
}

// Command 0. A frame that is no such request gets no answer.
fn tell_identity(frame: Frame, payload: &mut Payload) -> Option<usize>
    requires { (frame.frame_type ≡ Request) × (frame.command ≡ 0) }
    ensures { spoken_by result payload.new ≡ identifies }
{
    read_device_id::read_request(frame).ok()?;
    read_device_id::encode_response(0, 0, own_identity(), payload).ok()
}

// Command 9: the variables that were asked for, in that order.
fn tell_variables(frame: Frame, payload: &mut Payload) -> Option<usize>
    requires { (frame.frame_type ≡ Request) × (frame.command ≡ 9) }
    ensures { spoken_by result payload.new ≡ measures (codes_read (data_of frame)) }
{
    let Ok(request) = read_device_vars::read_request(frame) else {
        return tell_status(TOO_FEW_BYTES, payload);
    };
    let variables = request.codes.map(own_variable);
    read_device_vars::encode_response(0, 0, 0, variables, request.count, payload).ok()
}

// Command 11: another tag means another device, and that one answers.
fn tell_if_tagged(frame: Frame, payload: &mut Payload) -> Option<usize>
    requires { (frame.frame_type ≡ Request) × (frame.command ≡ 11) }
    ensures { spoken_by result payload.new ≡ recognizes (tag_read Standard (data_of frame)) }
{
    let Ok(request) = read_unique_id_by_tag::read_request(Mode::Standard, frame) else {
        return tell_status(TOO_FEW_BYTES, payload);
    };
    if request.tag != own_tag() {
        return None;
    }
    read_unique_id_by_tag::encode_response(0, 0, own_identity(), payload).ok()
}

// Command 13.
fn tell_texts(frame: Frame, payload: &mut Payload) -> Option<usize>
    requires { (frame.frame_type ≡ Request) × (frame.command ≡ 13) }
    ensures { spoken_by result payload.new ≡ describes }
{
    read_tag_descriptor_date::read_request(frame).ok()?;
    read_tag_descriptor_date::encode_response(Mode::Standard, 0, 0, own_texts(), payload).ok()
}

// Command 18: the fields as they were sent. The device is fixed, and keeps none of them.
fn tell_back(frame: Frame, payload: &mut Payload) -> Option<usize>
    requires { (frame.frame_type ≡ Request) × (frame.command ≡ 18) }
    ensures { spoken_by result payload.new ≡ rewrites (fields_read Standard (data_of frame)) }
{
    let Ok(request) = write_tag_descriptor_date::read_request(Mode::Standard, frame) else {
        return tell_status(TOO_FEW_BYTES, payload);
    };
    write_tag_descriptor_date::encode_response(Mode::Standard, 0, 0, request, payload).ok()
}

fn tell_request(frame: Frame, payload: &mut Payload) -> Option<usize>
    requires { frame.frame_type ≡ Request }
    ensures { spoken_by result payload.new ≡ told_to frame.command (data_of frame) }
{
    let command = frame.command;
    match command {
        READ_DEVICE_ID => tell_identity(frame, payload),
        READ_DEVICE_VARS_WITH_STATUS => tell_variables(frame, payload),
        READ_UNIQUE_ID_BY_TAG => tell_if_tagged(frame, payload),
        READ_TAG_DESCRIPTOR_DATE => tell_texts(frame, payload),
        WRITE_TAG_DESCRIPTOR_DATE => tell_back(frame, payload),
        _ => tell_status(NOT_IMPLEMENTED, payload),
    }
}

fn tell(frame: Frame, payload: &mut Payload) -> Option<usize>
    ensures { spoken_by result payload.new ≡ answer_to frame }
{
    let frame_type = frame.frame_type;
    match frame_type {
        FrameType::Request => tell_request(frame, payload),
        FrameType::Response => None,
        FrameType::Burst => None,
    }
}

// The response with these data.
fn reply(address: Address, command: u8, data: &[u8], out: &mut [u8]) -> Result<usize, Refusal>
    ensures { ends (reply_of result) out.new ≡ encoded Response address command «data».now enough out.old }
{
    encode_frame(
        FrameType::Response,
        address,
        command,
        data,
        MIN_PREAMBLE_COUNT,
        out,
    )
}

// Writes the response to the front of the buffer, and how many bytes that is: 0 where there is none.
pub fn answer(frame: Frame, out: &mut [u8]) -> Result<usize, Refusal>
    ensures { ends (reply_of result) out.new ≡ answering frame out.old }
{
    let mut payload: Payload = [0; GROUPS_END];
    let Some(n) = tell(frame, &mut payload) else {
        return Ok(0);
    };
    let data = &payload[..n.min(payload.len())];
    reply(frame.address, frame.command, data, out)
}
