// A whole response: what its fields come to is known before the first is put, so that a refused call
// writes nothing.
ghost use Rattle.std.specs.Prelude.{◌≡◌, ◌≤◌, length};
ghost use Rattle.refusal.specs.Outcome.{ends, reply_of};
ghost use Rattle.response.specs.Sizes.{most_fields};
ghost use Rattle.response.specs.Writer.{nth_field, field_at};
ghost use Rattle.response.specs.Whole.{weighed, size_or_late, first_bad, responded};

use crate::field::Field;
use crate::writer::{ResponseFields, write_fields};
use refusal::Refusal;

// The bytes of all fields: 1 where one would end too late.
fn size_of(fields: &[Field]) -> Result<usize, Refusal>
    ensures { result ≡ size_or_late (weighed (nth_field fields.now) (length fields.now)) }
{
    let mut size = 0;
    for field in fields {
        size += field.size();
        if field.kind.latest() < size {
            return Err(Refusal::DataTooLong);
        }
    }
    Ok(size)
}

// The first place of a character without a code, counted through all text.
fn bad_place(fields: &[Field]) -> Option<usize>
    requires { length fields.now ≤ most_fields }
    ensures { result ≡ first_bad (weighed (nth_field fields.now) (length fields.now)) }
{
    let mut characters = 0;
    for field in fields {
        if let Some(place) = field.bad_place() {
            return Some(characters + place);
        }
        characters += field.characters();
    }
    None
}

// All fields, or none: 1 where there are too many or one would end too late, 2 where there is no room for
// all, 7 for the first character without a code, counted through all text.
pub fn write_response(fields: ResponseFields, payload: &mut [u8]) -> Result<usize, Refusal>
    ensures { ends (reply_of result) payload.new ≡ responded (field_at fields) fields.count payload.old }
{
    let Some(fields) = fields.as_slice() else {
        return Err(Refusal::DataTooLong);
    };
    let size = size_of(fields)?;
    if payload.len() < size {
        return Err(Refusal::BufferTooSmall);
    }
    if let Some(place) = bad_place(fields) {
        return Err(Refusal::BadCharacter(place));
    }
    write_fields(fields, payload);
    Ok(size)
}
