// The response writer: it remembers the payload that it was lent and the place that it has reached. What putting a
// field comes to is `put_field`'s; here it is only called.
ghost use Rattle.std.specs.Prelude.{◌≡◌, ◌≤◌, ◌<◌, length, take, MatchOption};
ghost use Rattle.refusal.specs.Outcome.{reply_of};
ghost use Rattle.response.specs.Sizes.{most_fields};
ghost use Rattle.response.specs.Writer.{reply_in, advanced, pushed_on, no_fields, with_field, nth_field, in_turn};

use crate::field::{Field, put_field};
use crate::sizes::MAX_DEVICE_VARS;
use refusal::Refusal;

#[derive(Drop)]
pub struct ResponseWriter<'a> {
    pub payload: &'a mut [u8],
    pub at: usize,
}

impl<'a> ResponseWriter<'a> {
    pub fn new(payload: &'a mut [u8]) -> ResponseWriter<'a>
        ensures { (result.payload ≡ payload.entry) × (result.at ≡ 0) }
    {
        ResponseWriter { payload, at: 0 }
    }

    // One field more, behind those that are there.
    pub fn push(&mut self, field: Field) -> Result<usize, Refusal>
        ensures { (reply_of result ≡ reply_in (pushed_on self.old field)) × (self.new ≡ advanced self.old (pushed_on self.old field)) }
    {
        let at = self.at;
        let end = put_field(self.payload, at, field)?;
        self.at = end;
        Ok(end - at)
    }
}

// The status pair, the extended status and eight groups.
pub const MAX_FIELDS: usize = 2 + MAX_DEVICE_VARS;

// The fields of a response in turn: the first `count`. More than there is room for are counted as one too
// many, and no response is then written. `write_response` answers for any count, so the type rules none out.
#[derive(Clone, Copy)]
pub struct ResponseFields {
    pub list: [Field; MAX_FIELDS],
    pub count: usize,
}

impl ResponseFields {
    pub fn new() -> ResponseFields
        ensures { result ≡ no_fields }
    {
        ResponseFields {
            list: [Field::none(); MAX_FIELDS],
            count: 0,
        }
    }

    pub fn with(mut self, field: Field) -> ResponseFields
        ensures { result ≡ with_field self field }
    {
        if self.count < MAX_FIELDS {
            self.list[self.count] = field;
            self.count += 1;
        } else {
            self.count = MAX_FIELDS + 1;
        }
        self
    }

    // Those that were added, unless they are too many.
    pub(crate) fn as_slice(&self) -> Option<&[Field]>
        ensures { MatchOption result (most_fields < self.now.count) (λ fields. (self.now.count ≤ most_fields) × (fields.now ≡ take self.now.count self.now.list) × (length fields.now ≡ self.now.count)) }
    {
        self.list.get(..self.count)
    }
}

// All fields in turn, by one writer.
pub(crate) fn write_fields(fields: &[Field], payload: &mut [u8])
    ensures { payload.new ≡ (in_turn (nth_field fields.now) (length fields.now) (payload.old, 0)).0 }
{
    let mut writer = ResponseWriter::new(payload);
    for field in fields {
        let _ = writer.push(*field);
    }
}
