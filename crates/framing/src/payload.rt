// The payload of a response or a burst frame: document 01, 'Commands'. The verdict and the part are
// functions of their own beside `payload_in`, which gives both: the part cannot fail. Beside them the verdict of a device on
// a request (document 02, 1/12), whose data are the payload.
ghost use Rattle.std.specs.Prelude.{◌≡◌};
ghost use Rattle.octets.specs.Part.{part_of};
ghost use Rattle.framing.specs.Requests.{request_judgement, asked};
ghost use Rattle.framing.specs.Payload.{judgement_of, judged, payload_judgement, payload_part, portion, portion_of, typed};

use refusal::Refusal;
use types::FrameType;

// What the two status bytes at the front of a device's data say; the second refuses nothing.
fn status_verdict(data: &[u8]) -> Result<(), Refusal>
    ensures { judgement_of result ≡ judged «data».now }
{
    if data.len() < 2 {
        return Err(Refusal::BufferTooShort);
    }
    let first = data[0];
    if first / 0x80 % 2 == 1 {
        return Err(Refusal::CommError(first));
    }
    if first != 0 {
        return Err(Refusal::ResponseCode(first));
    }
    Ok(())
}

// Whether the data carry a payload. Only a device's frames have status bytes, so a request is refused
// before its data are looked at. The two arms that are alike are wrong programs' to tell apart (`burst_is_request`).
#[tactic(auto, unfolding(crate::specs::Payload::payload_judgement))]
pub fn payload_verdict(frame_type: FrameType, data: &[u8]) -> Result<(), Refusal>
    ensures { judgement_of result ≡ payload_judgement frame_type «data».now }
{
    match frame_type {
        FrameType::Request => Err(Refusal::WrongFrame),
        FrameType::Response => status_verdict(data),
        FrameType::Burst => status_verdict(data),
    }
}

// The caller's own bytes past the two of status, with nothing copied, or why there are none to read.
pub fn payload_in(frame_type: FrameType, data: &[u8]) -> Result<&[u8], Refusal>
    ensures { portion_of result ≡ portion (payload_judgement frame_type «data».now) (part_of «data».entry) }
{
    payload_verdict(frame_type, data)?;
    Ok(&data[2..])
}

// The same, and no bytes of them where there are none to read.
#[tactic(auto, using(crate::proofs::Payloads::part_or_none))]
pub fn payload_part(frame_type: FrameType, data: &[u8]) -> &[u8]
    ensures { part_of result ≡ payload_part frame_type (part_of «data».entry) }
{
    payload_in(frame_type, data).unwrap_or(&data[..0])
}

// Whether the data carry what a command's own reader asks for: the frame must be of that command. The verdict alone; a reader
// takes `typed_payload`.
#[tactic(auto, unfolding(crate::specs::Payload::typed))]
pub fn typed_verdict(
    wanted: u8,
    frame_type: FrameType,
    command: u8,
    data: &[u8],
) -> Result<(), Refusal>
    ensures { judgement_of result ≡ typed wanted frame_type command «data».now }
{
    if command == wanted {
        return payload_verdict(frame_type, data);
    }
    Err(Refusal::WrongFrame)
}

// The payload that a command's own reader is handed, or why there is none.
#[tactic(auto, unfolding(crate::specs::Payload::typed))]
pub fn typed_payload(
    wanted: u8,
    frame_type: FrameType,
    command: u8,
    data: &[u8],
) -> Result<&[u8], Refusal>
    ensures { portion_of result ≡ portion (typed wanted frame_type command «data».now) (part_of «data».entry) }
{
    if command != wanted {
        return Err(Refusal::WrongFrame);
    }
    payload_in(frame_type, data)
}

fn type_verdict(frame_type: FrameType) -> Result<(), Refusal>
    ensures { judgement_of result ≡ request_judgement frame_type }
{
    match frame_type {
        FrameType::Request => Ok(()),
        FrameType::Response => Err(Refusal::WrongFrame),
        FrameType::Burst => Err(Refusal::WrongFrame),
    }
}

// Whether a frame is the request that a command's own reader asks for, as a device reads it. Its data are not
// looked at.
#[tactic(auto, unfolding(crate::specs::Requests::asked))]
pub fn request_verdict(wanted: u8, frame_type: FrameType, command: u8) -> Result<(), Refusal>
    ensures { judgement_of result ≡ asked wanted frame_type command }
{
    if command == wanted {
        return type_verdict(frame_type);
    }
    Err(Refusal::WrongFrame)
}
