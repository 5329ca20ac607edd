// A tag, a descriptor and a date in one layout, which the requests and responses that carry them share.
ghost use Rattle.std.specs.Prelude.{◌≡◌, ◌++◌, ◌≤◌, ◌*◌, length};
ghost use Rattle.refusal.specs.Outcome.{ends, reply_of};
ghost use Rattle.octets.specs.Put.{put};
ghost use Rattle.framing.specs.Payload.{typed_in};
ghost use Rattle.packed_string.specs.Modes.{bad_in, unpacked_text};
ghost use Rattle.commands.specs.Code.{texts_fields, bad_place_in_text};
ghost use Rattle.commands.specs.Responses.{tag_descriptor_date_responded};
ghost use Rattle.commands.specs.TagDescriptorDate.{texts_length, layout_size, tag_descriptor_date_layout, fields_of, fields_read, texts_reader};

use framing::typed_payload;
use packed_string::{Mode, bad_place_in, decode_in, encode_in};
use refusal::Refusal;
use response::{DESCRIPTOR_LENGTH, Field, ResponseFields, TAG_LENGTH, write_response};
use types::FrameType;

// The bytes that a tag is packed in: three for four characters.
pub(crate) const TAG_SIZE: usize = TAG_LENGTH / 4 * 3;

// The characters of both texts.
const TEXTS_LENGTH: usize = TAG_LENGTH + DESCRIPTOR_LENGTH;

const DESCRIPTOR_SIZE: usize = DESCRIPTOR_LENGTH / 4 * 3;

// The date stands behind both texts.
const DAY_AT: usize = TAG_SIZE + DESCRIPTOR_SIZE;

const MONTH_AT: usize = DAY_AT + 1;

const YEAR_AT: usize = MONTH_AT + 1;

pub(crate) const LAYOUT_SIZE: usize = YEAR_AT + 1;

#[derive(Clone, Copy, Debug, PartialEq, Eq)]
pub struct TagDescriptorDate {
    pub tag: [u8; TAG_LENGTH],
    pub descriptor: [u8; DESCRIPTOR_LENGTH],
    pub day: u8,
    pub month: u8,
    pub year: u8,
}

// The place of the first character without a code, on through the tag and the descriptor.
pub(crate) fn bad_place_in_texts(mode: Mode, texts: TagDescriptorDate) -> Option<usize>
    ensures { result ≡ bad_place_in_text mode (texts.tag ++ texts.descriptor) }
{
    let place = bad_place_in(mode, &texts.tag);
    if place < TAG_LENGTH {
        return Some(place);
    }
    let place = TAG_LENGTH + bad_place_in(mode, &texts.descriptor);
    (place < TEXTS_LENGTH).then_some(place)
}

pub(crate) fn write_layout(mode: Mode, texts: TagDescriptorDate, buf: &mut [u8])
    requires { (layout_size ≤ length buf.old) × (texts_length ≤ bad_in mode (texts.tag ++ texts.descriptor)) }
    ensures { buf.new ≡ put buf.old 0 (tag_descriptor_date_layout mode texts.tag texts.descriptor texts.day texts.month texts.year) }
{
    let _ = encode_in(mode, &texts.tag, &mut buf[0..TAG_SIZE]);
    let _ = encode_in(mode, &texts.descriptor, &mut buf[TAG_SIZE..DAY_AT]);
    buf[DAY_AT] = texts.day;
    buf[MONTH_AT] = texts.month;
    buf[YEAR_AT] = texts.year;
}

// The characters of a packed text, four for three bytes.
pub(crate) fn unpacked<const N: usize>(mode: Mode, packed: &[u8]) -> [u8; N]
    requires { length packed.now * 4 ≡ N * 3 }
    ensures { result ≡ unpacked_text mode packed.now }
{
    let mut text = [0x20; N];
    let _ = decode_in(mode, packed, &mut text);
    text
}

// Bytes past the layout are not looked at.
pub(crate) fn read_layout(mode: Mode, data: &[u8]) -> Result<TagDescriptorDate, Refusal>
    ensures { fields_of result ≡ fields_read mode «data».now }
{
    if data.len() < LAYOUT_SIZE {
        return Err(Refusal::BufferTooShort);
    }
    Ok(TagDescriptorDate {
        tag: unpacked(mode, &data[..TAG_SIZE]),
        descriptor: unpacked(mode, &data[TAG_SIZE..DAY_AT]),
        day: data[DAY_AT],
        month: data[MONTH_AT],
        year: data[YEAR_AT],
    })
}

// The fields that a frame carries for a command that has this layout, or why it carries none.
#[tactic(auto, unfolding(framing::specs::Payload::typed_in))]
pub(crate) fn read_texts(
    wanted: u8,
    mode: Mode,
    frame_type: FrameType,
    command: u8,
    data: &[u8],
) -> Result<TagDescriptorDate, Refusal>
    ensures { fields_of result ≡ typed_in (texts_reader wanted mode) frame_type command «data».now }
{
    let payload = typed_payload(wanted, frame_type, command, data)?;
    read_layout(mode, payload)
}

// The fields of the response of commands 13 and 18.
fn fields_of(mode: Mode, first: u8, second: u8, texts: TagDescriptorDate) -> ResponseFields
    ensures { result ≡ texts_fields mode first second texts.tag texts.descriptor texts.day texts.month texts.year }
{
    let status = Field::status(first, second);
    let tag = Field::tag(mode, texts.tag);
    let descriptor = Field::descriptor(mode, texts.descriptor);
    let date = Field::date(texts.day, texts.month, texts.year);
    ResponseFields::new()
        .with(status)
        .with(tag)
        .with(descriptor)
        .with(date)
}

pub(crate) fn write_texts_and_date(
    mode: Mode,
    first: u8,
    second: u8,
    texts: TagDescriptorDate,
    payload: &mut [u8],
) -> Result<usize, Refusal>
    ensures { ends (reply_of result) payload.new ≡ tag_descriptor_date_responded mode first second texts.tag texts.descriptor texts.day texts.month texts.year payload.old }
{
    let fields = fields_of(mode, first, second, texts);
    write_response(fields, payload)
}
