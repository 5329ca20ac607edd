// The dump's lines, letters A and E: what the program `dump` prints of the same bytes.
use crate::given::Given;
use crate::output::{Answered, Failed, Output};
use crate::shown::Refused;
use dump_lines::{Dump, LINE_MAX};
use std::fmt::Write;

// A line's end within an answer is a semicolon.
fn end_with_semicolons(lines: &mut [u8]) {
    for character in lines {
        if *character == b'\n' {
            *character = b';';
        }
    }
}

// Where the lines left no room for all bytes to be taken, the answer is too long.
pub(crate) fn dump_bytes(dump: &mut Dump, mut given: Given, out: &mut Output) -> Answered {
    let bytes = given.rest();
    let lines = out.spare();
    let taken = dump.take(bytes, lines);
    if taken.used < bytes.len() {
        return Err(Failed::NoRoom);
    }
    end_with_semicolons(lines.get_mut(..taken.written).unwrap_or(&mut []));
    out.grow(taken.written)?;
    out.put_silence()?;
    Ok(())
}

// The last line, without its newline, as it would be now.
pub(crate) fn put_end(dump: &Dump, given: Given, out: &mut Output) -> Answered {
    given.end()?;
    let mut line = [0u8; LINE_MAX];
    match dump.end(&mut line) {
        Ok(written) => {
            let line = line.get(..written).unwrap_or(&[]);
            for character in line.strip_suffix(b"\n").unwrap_or(line) {
                out.put(*character)?;
            }
        }
        Err(refusal) => write!(out, "{}", Refused(refusal))?,
    }
    Ok(())
}
