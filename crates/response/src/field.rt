// A field of a response, by value, and how it comes into a payload at a place.
ghost use Rattle.std.specs.Prelude.{◌≡◌, [], ◌∷◌, ◌≤◌, ◌<◌, length, IfSome, IfOk};
ghost use Rattle.line.specs.Layout.{most_data};
ghost use Rattle.octets.specs.Put.{put};
ghost use Rattle.response.specs.declared.field.Kind.TheVariants.{Bytes, Group, Text};
ghost use Rattle.response.specs.Sizes.{field_room};
ghost use Rattle.response.specs.Field.{field_of, contents, bytes_in, size_in, latest_of, field_size, field_characters, bad_place_in_field, placing, pushed_field};

use crate::sizes::{
    DATA_ROOM, DESCRIPTOR_LENGTH, FIELD_ROOM, GROUP_SIZE, GROUPS_END, IDENTITY_SIZE, TAG_LENGTH,
};
use octets::copy_into;
use packed_string::{Mode, bad_place_in, encode_in};
use refusal::Refusal;

// Bytes as they are, the group of a device variable, or text, which is packed where it is put.
#[derive(Clone, Copy)]
pub enum Kind {
    Bytes,
    Group,
    Text(Mode),
}

impl Kind {
    // How many bytes so many contents take.
    fn size(self, n: usize) -> usize
        ensures { result ≡ size_in self n }
    {
        match self {
            Kind::Bytes | Kind::Group => n,
            Kind::Text(_) => n.div_ceil(4) * 3,
        }
    }

    // The place where a field has to end at the latest.
    pub(crate) fn latest(self) -> usize
        ensures { result ≡ latest_of self }
    {
        match self {
            Kind::Bytes | Kind::Text(_) => DATA_ROOM,
            Kind::Group => GROUPS_END,
        }
    }
}

// Its contents are the first `length` of the bytes: there is no heap, so they stand in an array that holds the longest.
// Each constructor is a name of HART's and the length that goes with it; all stand on `field_of`.
#[derive(Clone, Copy)]
pub struct Field {
    pub kind: Kind,
    pub bytes: [u8; FIELD_ROOM],
    pub length: u8,
}

fn field_of(kind: Kind, contents: &[u8]) -> Field
    requires { length contents.now ≤ field_room }
    ensures { result ≡ field_of kind contents.now }
{
    let mut bytes = [0; FIELD_ROOM];
    copy_into(contents, &mut bytes, 0);
    Field {
        kind,
        bytes,
        length: contents.len() as u8,
    }
}

impl Field {
    pub(crate) fn none() -> Field
        ensures { result ≡ field_of Bytes [] }
    {
        field_of(Kind::Bytes, &[])
    }

    // The two status bytes that every response begins with.
    pub fn status(first: u8, second: u8) -> Field
        ensures { result ≡ field_of Bytes (first ∷ second ∷ []) }
    {
        field_of(Kind::Bytes, &[first, second])
    }

    // The byte that stands before the groups of command 9.
    pub fn extended_status(byte: u8) -> Field
        ensures { result ≡ field_of Bytes (byte ∷ []) }
    {
        field_of(Kind::Bytes, &[byte])
    }

    // The bytes of a device variable.
    pub fn group(bytes: [u8; GROUP_SIZE]) -> Field
        ensures { result ≡ field_of Group bytes }
    {
        field_of(Kind::Group, &bytes)
    }

    // The bytes of a device's identity.
    pub fn identity(bytes: [u8; IDENTITY_SIZE]) -> Field
        ensures { result ≡ field_of Bytes bytes }
    {
        field_of(Kind::Bytes, &bytes)
    }

    pub fn tag(mode: Mode, text: [u8; TAG_LENGTH]) -> Field
        ensures { result ≡ field_of (Text mode) text }
    {
        field_of(Kind::Text(mode), &text)
    }

    pub fn descriptor(mode: Mode, text: [u8; DESCRIPTOR_LENGTH]) -> Field
        ensures { result ≡ field_of (Text mode) text }
    {
        field_of(Kind::Text(mode), &text)
    }

    pub fn date(day: u8, month: u8, year: u8) -> Field
        ensures { result ≡ field_of Bytes (day ∷ month ∷ year ∷ []) }
    {
        field_of(Kind::Bytes, &[day, month, year])
    }

    // A made-up field may claim more than it holds.
    fn contents(&self) -> &[u8]
        ensures value { result.now ≡ contents self.now }
        ensures short { length result.now ≤ field_room }
    {
        let count = FIELD_ROOM.min(self.length as usize);
        &self.bytes[..count]
    }

    // How many bytes it takes.
    pub(crate) fn size(&self) -> usize
        ensures value { result ≡ field_size self.now }
        ensures short { result ≤ field_room }
    {
        self.kind.size(self.contents().len())
    }

    // How many characters it has.
    pub(crate) fn characters(&self) -> usize
        ensures value { result ≡ field_characters self.now }
        ensures short { result ≤ field_room }
    {
        match self.kind {
            Kind::Bytes | Kind::Group => 0,
            Kind::Text(_) => self.contents().len(),
        }
    }

    // The place of the first character without a code.
    pub(crate) fn bad_place(&self) -> Option<usize>
        ensures value { result ≡ bad_place_in_field self.now }
        ensures short { IfSome result (λ place. place < field_room) }
    {
        match self.kind {
            Kind::Bytes | Kind::Group => None,
            Kind::Text(mode) => {
                let contents = self.contents();
                let place = bad_place_in(mode, contents);
                (place < contents.len()).then_some(place)
            }
        }
    }
}

// The slice-and-position function that the writer's method stands on. It gives the place behind the field; a
// refused field writes nothing: 1 where it would end too late, 2 where there is no room, 7 for a character
// without a code.
#[tactic(auto, unfolding(crate::specs::Field::pushed_in))]
pub fn put_field(payload: &mut [u8], at: usize, field: Field) -> Result<usize, Refusal>
    ensures placed { placing at result payload.new ≡ pushed_field field payload.old at }
    ensures onward { IfOk result (λ behind. (at ≤ behind) × (behind ≤ most_data)) }
{
    let size = field.size();
    let end = at.saturating_add(size);
    if field.kind.latest() < end {
        return Err(Refusal::DataTooLong);
    }
    if payload.len() < end {
        return Err(Refusal::BufferTooSmall);
    }
    if let Some(place) = field.bad_place() {
        return Err(Refusal::BadCharacter(place));
    }
    let contents = field.contents();
    match field.kind {
        Kind::Bytes | Kind::Group => copy_into(contents, payload, at),
        Kind::Text(mode) => {
            let _ = encode_in(mode, contents, &mut payload[at..end]);
        }
    }
    Ok(end)
}
