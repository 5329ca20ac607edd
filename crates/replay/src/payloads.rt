// What a frame's data carry, letters y and f: document 01, 'Commands'.
use crate::given::{Command, Given};
use crate::output::{Answered, Output};
use crate::readers::{put_identity, put_texts, put_variables};
use crate::shown::{HexOrDash, Told};
use commands::{
    read_device_id, read_device_vars, read_tag_descriptor_date, read_unique_id_by_tag,
    write_tag_descriptor_date,
};
use framing::{payload_part, payload_verdict};
use refusal::Refusal;
use std::fmt;
use std::fmt::Write;

pub(crate) fn put_verdict(verdict: Result<(), Refusal>, out: &mut Output) -> fmt::Result {
    write!(out, "{}", Told(verdict.map(|()| ".")))
}

pub(crate) fn read_payload(mut given: Given, out: &mut Output) -> Answered {
    let frame_type = given.frame_type()?;
    let data = given.rest();
    put_verdict(payload_verdict(frame_type, data), out)?;
    write!(out, " {}", HexOrDash(payload_part(frame_type, data)))?;
    Ok(())
}

// The reader is that of its own command, whatever the frame's command is.
pub(crate) fn read_typed(mut given: Given, out: &mut Output) -> Answered {
    let mode = given.mode()?;
    let reader = given.command()?;
    let frame_type = given.frame_type()?;
    let command = given.byte()?;
    let data = given.rest();
    match reader {
        Command::ReadDeviceId => {
            put_identity(read_device_id::read_frame(frame_type, command, data), out)?;
        }
        Command::ReadDeviceVars => {
            let read = read_device_vars::read_frame(mode, frame_type, command, data);
            put_variables(read, out)?;
        }
        Command::ReadUniqueIdByTag => {
            let read = read_unique_id_by_tag::read_frame(frame_type, command, data);
            put_identity(read, out)?;
        }
        Command::ReadTagDescriptorDate => {
            let read = read_tag_descriptor_date::read_frame(mode, frame_type, command, data);
            put_texts(read, out)?;
        }
        Command::WriteTagDescriptorDate => {
            let read = write_tag_descriptor_date::read_frame(mode, frame_type, command, data);
            put_texts(read, out)?;
        }
    }
    Ok(())
}
