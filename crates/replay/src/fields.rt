// Fields of a response as a case gives them, a kind and its bytes: put in turn, letter W, and as a whole
// response, letter F.
use crate::given::{Given, NoCase};
use crate::output::{Answered, Output};
use crate::shown::Told;
use crate::writers::put_written;
use commands::Mode;
use response::{Field, MAX_FIELDS, ResponseFields, put_field, write_response};
use std::fmt::Write;

// So many fields are put in turn at most.
const PUT_MAX: usize = 12;

// A field, its kind being in front of it.
fn read_field(given: &mut Given) -> Result<Field, NoCase> {
    match given.byte()? {
        0 => {
            let [first, second] = given.array::<2>()?;
            Ok(Field::status(first, second))
        }
        1 => Ok(Field::extended_status(given.byte()?)),
        2 => Ok(Field::group(given.array()?)),
        3 => Ok(Field::identity(given.array()?)),
        4 => Ok(Field::tag(Mode::Crate, given.array()?)),
        5 => Ok(Field::tag(Mode::Standard, given.array()?)),
        6 => Ok(Field::descriptor(Mode::Crate, given.array()?)),
        7 => Ok(Field::descriptor(Mode::Standard, given.array()?)),
        8 => {
            let [day, month, year] = given.array::<3>()?;
            Ok(Field::date(day, month, year))
        }
        _ => Err(NoCase),
    }
}

// All that is left, as fields; not more than so many.
fn read_fields<const N: usize>(given: &mut Given) -> Result<[Option<Field>; N], NoCase> {
    let mut fields = [None; N];
    for field in fields.iter_mut() {
        if !given.is_empty() {
            *field = Some(read_field(given)?);
        }
    }
    given.end()?;
    Ok(fields)
}

pub(crate) fn put_in_turn(mut given: Given, out: &mut Output) -> Answered {
    let mut buffer = given.room()?;
    let mut place = given.usize()?;
    for field in read_fields::<PUT_MAX>(&mut given)?.into_iter().flatten() {
        let reached = put_field(buffer.lent(), place, field);
        let written = reached.map(|behind| behind - place);
        place = reached.unwrap_or(place);
        write!(out, "{}@{place} ", Told(written))?;
    }
    write!(out, "{buffer}")?;
    Ok(())
}

pub(crate) fn write_whole(mut given: Given, out: &mut Output) -> Answered {
    let mut buffer = given.room()?;
    let mut fields = ResponseFields::new();
    for field in read_fields::<MAX_FIELDS>(&mut given)?.into_iter().flatten() {
        fields = fields.with(field);
    }
    put_written(write_response(fields, buffer.lent()), buffer, out)?;
    Ok(())
}
