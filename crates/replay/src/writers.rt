// The calls that write into a lent buffer, letters w, e, p, P, u, U, q, t, T, d, D and O.
use crate::addresses::read_address;
use crate::buffer::Buffer;
use crate::given::{Command, Given, NoCase};
use crate::output::{Answered, Output};
use crate::responses::read_texts;
use crate::shown::Told;
use commands::{
    Mode, read_device_id, read_device_vars, read_tag_descriptor_date, read_unique_id_by_tag,
    write_tag_descriptor_date,
};
use framing::encode_frame;
use refusal::Refusal;
use std::fmt;
use std::fmt::Write;

// What a call told, and what it left in its buffer.
pub(crate) fn put_written(
    written: Result<usize, Refusal>,
    buffer: Buffer,
    out: &mut Output,
) -> fmt::Result {
    write!(out, "{} {}", Told(written), buffer)
}

pub(crate) fn write_address(mut given: Given, out: &mut Output) -> Answered {
    let address = read_address(&mut given)?;
    let mut buffer = given.short_room()?;
    given.end()?;
    put_written(address.encode(buffer.lent()), buffer, out)?;
    Ok(())
}

pub(crate) fn write_frame(mut given: Given, out: &mut Output) -> Answered {
    let frame_type = given.frame_type()?;
    let address = read_address(&mut given)?;
    let [command, preambles] = given.array::<2>()?;
    let mut buffer = given.room()?;
    let data = given.rest();
    let written = encode_frame(frame_type, address, command, data, preambles, buffer.lent());
    put_written(written, buffer, out)?;
    Ok(())
}

// Text, and packed text, behind the room for the other.
pub(crate) fn write_text<F>(write: F, mut given: Given, out: &mut Output) -> Answered
where
    F: FnOnce(&[u8], &mut [u8]) -> Result<usize, Refusal>,
    requires { F.IsAlwaysCallable write }
{
    let mut buffer = given.room()?;
    let written = write(given.rest(), buffer.lent());
    put_written(written, buffer, out)?;
    Ok(())
}

pub(crate) fn write_codes(mut given: Given, out: &mut Output) -> Answered {
    let mut buffer = given.short_room()?;
    let written = read_device_vars::encode_data(given.rest(), buffer.lent());
    put_written(written, buffer, out)?;
    Ok(())
}

pub(crate) fn write_tag(mode: Mode, mut given: Given, out: &mut Output) -> Answered {
    let mut buffer = given.short_room()?;
    let tag = given.array()?;
    given.end()?;
    let written = read_unique_id_by_tag::encode_data(mode, tag, buffer.lent());
    put_written(written, buffer, out)?;
    Ok(())
}

pub(crate) fn write_texts(mode: Mode, mut given: Given, out: &mut Output) -> Answered {
    let mut buffer = given.short_room()?;
    let texts = read_texts(&mut given)?;
    let written = write_tag_descriptor_date::encode_data(mode, texts, buffer.lent());
    put_written(written, buffer, out)?;
    Ok(())
}

// The two requests that carry no data.
pub(crate) fn write_no_data(mut given: Given, out: &mut Output) -> Answered {
    let command = given.command()?;
    let mut buffer = given.room()?;
    given.end()?;
    let written = match command {
        Command::ReadDeviceId => read_device_id::encode_data(buffer.lent()),
        Command::ReadTagDescriptorDate => read_tag_descriptor_date::encode_data(buffer.lent()),
        _ => return Err(NoCase.into()),
    };
    put_written(written, buffer, out)?;
    Ok(())
}
