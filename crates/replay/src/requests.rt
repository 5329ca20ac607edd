// Requests as a device reads them, letter Q: document 02, 1/12. From a whole frame, as callers do, or from its
// parts.
use crate::given::{Command, Given, NoCase};
use crate::output::{Answered, Output};
use crate::payloads::put_verdict;
use crate::readers::put_texts;
use crate::shown::{Hex, Told};
use commands::read_device_vars::ReadDeviceVarsRequest;
use commands::read_unique_id_by_tag::ReadUniqueIdByTagRequest;
use commands::{
    Mode, read_device_id, read_device_vars, read_tag_descriptor_date, read_unique_id_by_tag,
    write_tag_descriptor_date,
};
use framing::Frame;
use refusal::Refusal;
use std::fmt;
use std::fmt::Write;
use types::{Address, FrameType, MasterRole};

#[derive(Drop)]
struct Codes(ReadDeviceVarsRequest);

impl fmt::Display for Codes {
    fn fmt<W: fmt::Write>(&self, f: &mut fmt::Formatter<W>) -> fmt::Result {
        let count = self.0.count;
        let codes = &self.0.codes;
        let known = codes.len().min(count as usize);
        write!(f, "{count} {}", Hex(&codes[..known]))
    }
}

#[derive(Drop)]
struct Tag(ReadUniqueIdByTagRequest);

impl fmt::Display for Tag {
    fn fmt<W: fmt::Write>(&self, f: &mut fmt::Formatter<W>) -> fmt::Result {
        write!(f, "{}", Hex(&self.0.tag))
    }
}

fn put_codes(read: Result<ReadDeviceVarsRequest, Refusal>, out: &mut Output) -> fmt::Result {
    write!(out, "{}", Told(read.map(Codes)))
}

fn put_tag(read: Result<ReadUniqueIdByTagRequest, Refusal>, out: &mut Output) -> fmt::Result {
    write!(out, "{}", Told(read.map(Tag)))
}

// The reader is that of its own command, whatever the frame's command is.
fn put_whole(reader: Command, mode: Mode, frame: Frame, out: &mut Output) -> fmt::Result {
    match reader {
        Command::ReadDeviceId => put_verdict(read_device_id::read_request(frame), out),
        Command::ReadDeviceVars => put_codes(read_device_vars::read_request(frame), out),
        Command::ReadUniqueIdByTag => {
            put_tag(read_unique_id_by_tag::read_request(mode, frame), out)
        }
        Command::ReadTagDescriptorDate => {
            put_verdict(read_tag_descriptor_date::read_request(frame), out)
        }
        Command::WriteTagDescriptorDate => {
            put_texts(write_tag_descriptor_date::read_request(mode, frame), out)
        }
    }
}

// The same of the parts of a frame.
fn put_parts(
    reader: Command,
    mode: Mode,
    frame_type: FrameType,
    command: u8,
    data: &[u8],
    out: &mut Output,
) -> fmt::Result {
    match reader {
        Command::ReadDeviceId => {
            put_verdict(read_device_id::read_request_frame(frame_type, command), out)
        }
        Command::ReadDeviceVars => {
            let read = read_device_vars::read_request_frame(frame_type, command, data);
            put_codes(read, out)
        }
        Command::ReadUniqueIdByTag => {
            let read = read_unique_id_by_tag::read_request_frame(mode, frame_type, command, data);
            put_tag(read, out)
        }
        Command::ReadTagDescriptorDate => {
            let read = read_tag_descriptor_date::read_request_frame(frame_type, command);
            put_verdict(read, out)
        }
        Command::WriteTagDescriptorDate => {
            let read = write_tag_descriptor_date::read_request_frame(
                mode, frame_type, command, data,
            );
            put_texts(read, out)
        }
    }
}

// No reader looks at the address, so it is always the same. A whole frame holds no more data than the line
// allows; its parts may.
fn read_frame(frame_type: FrameType, command: u8, given: &mut Given) -> Result<Frame, NoCase> {
    let length = u8::try_from(given.len()).or(Err(NoCase))?;
    Ok(Frame {
        frame_type,
        address: Address::Short {
            master: MasterRole::Primary,
            burst: false,
            poll_address: 0,
        },
        command,
        data: given.padded()?,
        length,
    })
}

pub(crate) fn read_request(mut given: Given, out: &mut Output) -> Answered {
    let (mode, in_parts) = match given.byte()? {
        0 => (Mode::Crate, false),
        1 => (Mode::Standard, false),
        2 => (Mode::Crate, true),
        3 => (Mode::Standard, true),
        _ => return Err(NoCase.into()),
    };
    let reader = given.command()?;
    let frame_type = given.frame_type()?;
    let command = given.byte()?;
    if in_parts {
        put_parts(reader, mode, frame_type, command, given.rest(), out)?;
    } else {
        let frame = read_frame(frame_type, command, &mut given)?;
        put_whole(reader, mode, frame, out)?;
    }
    Ok(())
}
