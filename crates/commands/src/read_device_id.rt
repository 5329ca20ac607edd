// Command 0 (commands/read_device_id.rs): the request, which carries no data, and the response, which is an
// identity; and the same from the device's side (document 02, 1/12).
ghost use Rattle.std.specs.Prelude.{◌≡◌, []};
ghost use Rattle.refusal.specs.Outcome.{ends, reply_of, wrote};
ghost use Rattle.framing.specs.Payload.{judgement_of, typed_in, typed_of};
ghost use Rattle.framing.specs.Requests.{asked, asked_of, no_data};
ghost use Rattle.commands.specs.Identity.{identified_of, identity, command0};
ghost use Rattle.commands.specs.Responses.{identity_responded};

use crate::data_of;
use crate::identity::{DeviceIdentity, read_identity, write_identity};
use framing::{Frame, request_verdict};
use refusal::Refusal;
use types::FrameType;
use types::consts::commands::READ_DEVICE_ID;

// A request carries no data.
pub fn encode_data(buf: &mut [u8]) -> Result<usize, Refusal>
    ensures { ends (reply_of result) buf.new ≡ wrote [] buf.old }
{
    Ok(0)
}

pub fn decode_data(data: &[u8]) -> Result<DeviceIdentity, Refusal>
    ensures { identified_of result ≡ identity «data».now }
{
    DeviceIdentity::decode(data)
}

// The identity that a frame carries, or why it carries none.
pub fn read_frame(
    frame_type: FrameType,
    command: u8,
    data: &[u8],
) -> Result<DeviceIdentity, Refusal>
    ensures { identified_of result ≡ typed_in command0 frame_type command «data».now }
{
    read_identity(READ_DEVICE_ID, frame_type, command, data)
}

// The same of a frame that a decoder found.
#[tactic(auto, unfolding(framing::specs::Payload::typed_of))]
pub fn read_response(frame: Frame) -> Result<DeviceIdentity, Refusal>
    ensures { identified_of result ≡ typed_of command0 frame }
{
    read_frame(frame.frame_type, frame.command, data_of(&frame))
}

// Whether a frame is this request, as a device reads it. There are no data to look at.
pub fn read_request_frame(frame_type: FrameType, command: u8) -> Result<(), Refusal>
    ensures { judgement_of result ≡ asked 0 frame_type command }
{
    request_verdict(READ_DEVICE_ID, frame_type, command)
}

// The same of a frame that a decoder found.
#[tactic(auto, using(framing::proofs::Requests::asks_alone))]
pub fn read_request(frame: Frame) -> Result<(), Refusal>
    ensures { judgement_of result ≡ asked_of (no_data 0) frame }
{
    read_request_frame(frame.frame_type, frame.command)
}

// Writes a device's response: the two status bytes and the identity.
pub fn encode_response(
    first: u8,
    second: u8,
    identity: DeviceIdentity,
    payload: &mut [u8],
) -> Result<usize, Refusal>
    ensures { ends (reply_of result) payload.new ≡ identity_responded first second identity payload.old }
{
    write_identity(first, second, identity, payload)
}
