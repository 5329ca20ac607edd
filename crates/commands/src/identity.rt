// The twelve bytes by which a device identifies itself (DeviceIdentity of commands/mod.rs), both ways, and the
// responses that they are.
ghost use Rattle.std.specs.Prelude.{◌≡◌, ◌≤◌, length};
ghost use Rattle.refusal.specs.Outcome.{ends, reply_of};
ghost use Rattle.framing.specs.Payload.{typed_in};
ghost use Rattle.commands.specs.Responses.{identity_responded};
ghost use Rattle.commands.specs.Identity.{identity_at, lowered_bytes, identified_of, identity, identity_reader};
ghost use Rattle.response.specs.Sizes.{identity_size};

use framing::typed_payload;
use octets::{decode_u16_be, decode_u24_be, encode_u16_be, encode_u24_be};
use refusal::Refusal;
use response::{Field, IDENTITY_SIZE, ResponseFields, write_response};
use types::FrameType;

#[derive(Clone, Copy, Debug, PartialEq, Eq)]
pub struct DeviceIdentity {
    pub expansion_code: u8,
    pub expanded_device_type: u16,
    pub min_preamble_count: u8,
    pub hart_revision: u8,
    pub device_revision: u8,
    pub software_revision: u8,
    pub hardware_revision: u8,
    pub physical_signaling: u8,
    pub flags: u8,
    pub device_id: u32,
}

fn identity_at(data: &[u8]) -> DeviceIdentity
    requires { identity_size ≤ length «data».now }
    ensures { result ≡ identity_at «data».now }
{
    let hw_raw = data[7];
    DeviceIdentity {
        expansion_code: data[0],
        expanded_device_type: decode_u16_be(data[1], data[2]),
        min_preamble_count: data[3],
        hart_revision: data[4],
        device_revision: data[5],
        software_revision: data[6],
        hardware_revision: hw_raw / 8,
        physical_signaling: hw_raw % 8,
        flags: data[8],
        device_id: decode_u24_be(data[9], data[10], data[11]),
    }
}

impl DeviceIdentity {
    // Bytes past the twelfth are not looked at.
    pub fn decode(data: &[u8]) -> Result<DeviceIdentity, Refusal>
        ensures { identified_of result ≡ identity «data».now }
    {
        if data.len() < IDENTITY_SIZE {
            return Err(Refusal::BufferTooShort);
        }
        Ok(identity_at(data))
    }

    // The bits of a number that the line has no room for are lost.
    pub fn encode(self) -> [u8; IDENTITY_SIZE]
        ensures { result ≡ lowered_bytes self }
    {
        let device_type = encode_u16_be(self.expanded_device_type);
        let number = encode_u24_be(self.device_id);
        [
            self.expansion_code,
            device_type[0],
            device_type[1],
            self.min_preamble_count,
            self.hart_revision,
            self.device_revision,
            self.software_revision,
            self.hardware_revision % 32 * 8 + self.physical_signaling % 8,
            self.flags,
            number[0],
            number[1],
            number[2],
        ]
    }
}

// The identity that a frame carries for a command whose response it is, or why it carries none.
#[tactic(auto, unfolding(framing::specs::Payload::typed_in))]
pub(crate) fn read_identity(
    wanted: u8,
    frame_type: FrameType,
    command: u8,
    data: &[u8],
) -> Result<DeviceIdentity, Refusal>
    ensures { identified_of result ≡ typed_in (identity_reader wanted) frame_type command «data».now }
{
    let payload = typed_payload(wanted, frame_type, command, data)?;
    DeviceIdentity::decode(payload)
}

// The response of commands 0 and 11.
pub(crate) fn write_identity(
    first: u8,
    second: u8,
    identity: DeviceIdentity,
    payload: &mut [u8],
) -> Result<usize, Refusal>
    ensures { ends (reply_of result) payload.new ≡ identity_responded first second identity payload.old }
{
    let status = Field::status(first, second);
    let bytes = Field::identity(identity.encode());
    let fields = ResponseFields::new().with(status).with(bytes);
    write_response(fields, payload)
}
