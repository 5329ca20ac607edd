// Command 9 (commands/read_device_vars.rs): the request, the response in the Rust's reading and in the
// standard one (ADDED), and the response straight from a frame; and the same from the device's side (document
// 02, 1/12), whose responses have the standard layout.
ghost use Rattle.std.specs.Prelude.{Ok, ◌≡◌, ◌+◌, ◌≤◌, length};
ghost use Rattle.refusal.specs.Outcome.{ends, reply_of};
ghost use Rattle.commands.specs.Worth.{worth_of, worth};
ghost use Rattle.framing.specs.Payload.{typed_in, typed_of};
ghost use Rattle.framing.specs.Requests.{asked_in, asked_of};
ghost use Rattle.commands.specs.Responses.{variables_responded};
ghost use Rattle.commands.specs.Variables.{codes_requested, variable_at, group_bytes, no_variable, variables_of, groups_read, variables_read, command9, codes_of, codes_read, request9};
ghost use Rattle.response.specs.Sizes.{most_variables, group_size};
ghost use Rattle.commands.specs.Code.{variables_fields};

use crate::data_of;
use crate::reading::{Reading, value_of};
use framing::{Frame, request_verdict, typed_payload};
use octets::{copy_into, decode_u32_be, encode_u32_be};
use packed_string::Mode;
use refusal::Refusal;
pub use response::MAX_DEVICE_VARS;
use response::{Field, GROUP_SIZE, ResponseFields, write_response};
use types::FrameType;
use types::consts::commands::READ_DEVICE_VARS_WITH_STATUS;

// A unit is its raw byte. The value is that of `bits`, which are the line's own: a value that is the NaN
// has lost which of its patterns the line sent.
#[derive(Clone, Copy, Debug, PartialEq)]
pub struct DeviceVariable {
    pub device_var_code: u8,
    pub classification: u8,
    pub unit: u8,
    pub value: f32,
    pub bits: u32,
    pub status: u8,
}

// The codes are the first `count`; zeros follow them, as `codes_of` says. Nothing is allocated.
#[derive(Clone, Copy, Debug, PartialEq, Eq)]
pub struct ReadDeviceVarsRequest {
    pub count: u8,
    pub codes: [u8; MAX_DEVICE_VARS],
}

// The variables are the first `count`; all zeros follow them, as `variables_of` says. Nothing is allocated.
#[derive(Clone, Copy, Debug, PartialEq)]
pub struct ReadDeviceVarsResponse {
    pub count: u8,
    pub variables: [DeviceVariable; MAX_DEVICE_VARS],
}

impl DeviceVariable {
    // What the value is worth.
    pub fn reading(self) -> Reading
        ensures { worth_of result ≡ worth self.status self.bits }
    {
        Reading::of(self.status, self.bits)
    }

    // Its group. The float is written by its bits.
    pub fn encode(self) -> [u8; GROUP_SIZE]
        ensures { result ≡ group_bytes self }
    {
        let float = encode_u32_be(self.bits);
        [
            self.device_var_code,
            self.classification,
            self.unit,
            float[0],
            float[1],
            float[2],
            float[3],
            self.status,
        ]
    }
}

// Writes the codes of the variables that are asked for.
pub fn encode_data(slot_codes: &[u8], buf: &mut [u8]) -> Result<usize, Refusal>
    ensures { ends (reply_of result) buf.new ≡ codes_requested slot_codes.now buf.old }
{
    if slot_codes.len() > MAX_DEVICE_VARS {
        return Err(Refusal::DataTooLong);
    }
    if buf.len() < slot_codes.len() {
        return Err(Refusal::BufferTooSmall);
    }
    copy_into(slot_codes, buf, 0);
    Ok(slot_codes.len())
}

fn variable_at(data: &[u8], base: usize) -> DeviceVariable
    requires { base + group_size ≤ length «data».now }
    ensures { result ≡ variable_at «data».now base }
{
    let bits = decode_u32_be(
        data[base + 3],
        data[base + 4],
        data[base + 5],
        data[base + 6],
    );
    let value = value_of(bits);
    DeviceVariable {
        device_var_code: data[base],
        classification: data[base + 1],
        unit: data[base + 2],
        value,
        bits,
        status: data[base + 7],
    }
}

fn no_variable() -> DeviceVariable
    ensures { result ≡ no_variable }
{
    let value = value_of(0);
    DeviceVariable {
        device_var_code: 0,
        classification: 0,
        unit: 0,
        value,
        bits: 0,
        status: 0,
    }
}

// The whole groups from the front on, up to eight.
fn decode_groups(data: &[u8]) -> ReadDeviceVarsResponse
    ensures { variables_of (Ok result) ≡ groups_read «data».now }
{
    let mut variables = [no_variable(); MAX_DEVICE_VARS];
    let count = (data.len() / GROUP_SIZE).min(MAX_DEVICE_VARS);
    for i in 0..count {
        variables[i] = variable_at(data, i * GROUP_SIZE);
    }
    ReadDeviceVarsResponse {
        count: count as u8,
        variables,
    }
}

// Standard mode passes over the extended status byte in front of the groups, and needs it there.
pub fn decode_data(mode: Mode, data: &[u8]) -> Result<ReadDeviceVarsResponse, Refusal>
    ensures { variables_of result ≡ variables_read mode «data».now }
{
    match mode {
        Mode::Crate => Ok(decode_groups(data)),
        Mode::Standard => {
            let (_, groups) = data.split_first().ok_or(Refusal::BufferTooShort)?;
            Ok(decode_groups(groups))
        }
    }
}

// The response that a frame carries, or why it carries none.
#[tactic(auto, unfolding(framing::specs::Payload::typed_in))]
pub fn read_frame(
    mode: Mode,
    frame_type: FrameType,
    command: u8,
    data: &[u8],
) -> Result<ReadDeviceVarsResponse, Refusal>
    ensures { variables_of result ≡ typed_in (command9 mode) frame_type command «data».now }
{
    let payload = typed_payload(READ_DEVICE_VARS_WITH_STATUS, frame_type, command, data)?;
    decode_data(mode, payload)
}

// The same of a frame that a decoder found.
#[tactic(auto, unfolding(framing::specs::Payload::typed_of))]
pub fn read_response(mode: Mode, frame: Frame) -> Result<ReadDeviceVarsResponse, Refusal>
    ensures { variables_of result ≡ typed_of (command9 mode) frame }
{
    read_frame(mode, frame.frame_type, frame.command, data_of(&frame))
}

// The first eight codes count, and those past them are not looked at.
fn read_codes(data: &[u8]) -> Result<ReadDeviceVarsRequest, Refusal>
    ensures { codes_of result ≡ codes_read «data».now }
{
    if data.is_empty() {
        return Err(Refusal::BufferTooShort);
    }
    let count = MAX_DEVICE_VARS.min(data.len());
    let mut codes = [0u8; MAX_DEVICE_VARS];
    copy_into(&data[..count], &mut codes, 0);
    Ok(ReadDeviceVarsRequest {
        count: count as u8,
        codes,
    })
}

// The codes of the variables that a request asks for, as a device reads them.
#[tactic(auto, unfolding(framing::specs::Requests::asked_in))]
pub fn read_request_frame(
    frame_type: FrameType,
    command: u8,
    data: &[u8],
) -> Result<ReadDeviceVarsRequest, Refusal>
    ensures { codes_of result ≡ asked_in request9 frame_type command «data».now }
{
    request_verdict(READ_DEVICE_VARS_WITH_STATUS, frame_type, command)?;
    read_codes(data)
}

// The same of a frame that a decoder found.
#[tactic(auto, unfolding(framing::specs::Requests::asked_of))]
pub fn read_request(frame: Frame) -> Result<ReadDeviceVarsRequest, Refusal>
    ensures { codes_of result ≡ asked_of request9 frame }
{
    read_request_frame(frame.frame_type, frame.command, data_of(&frame))
}

// The fields of a response with the groups of some variables.
fn fields_of(first: u8, second: u8, extended: u8, variables: &[DeviceVariable]) -> ResponseFields
    requires { length variables.now ≤ most_variables }
    ensures { result ≡ variables_fields first second extended variables.now (length variables.now) }
{
    let status = Field::status(first, second);
    let extended = Field::extended_status(extended);
    let mut fields = ResponseFields::new().with(status).with(extended);
    for variable in variables {
        fields = fields.with(Field::group(variable.encode()));
    }
    fields
}

// Writes a device's response: the two status bytes, the extended status and the groups of the first `count`
// variables, of which there are eight at most.
pub fn encode_response(
    first: u8,
    second: u8,
    extended: u8,
    variables: [DeviceVariable; MAX_DEVICE_VARS],
    count: u8,
    payload: &mut [u8],
) -> Result<usize, Refusal>
    ensures { ends (reply_of result) payload.new ≡ variables_responded first second extended variables count payload.old }
{
    let n = count as usize;
    if n > MAX_DEVICE_VARS {
        return Err(Refusal::DataTooLong);
    }
    let fields = fields_of(first, second, extended, &variables[..n]);
    write_response(fields, payload)
}
