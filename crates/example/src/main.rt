// How the library is used, in one conversation with a device: a request is written, what then comes over
// the line is heard byte by byte, and the readings that an answer carries are taken out of it. The line is
// standard input, of which crates/example/stdin has a recording.
#![tactic(auto)]

ghost use Rattle.std.specs.Prelude.{◌≤◌, length};

mod told;

use commands::read_device_vars::ReadDeviceVarsResponse;
use commands::{Mode, Reading, read_device_vars, read_unique_id_by_tag};
use framing::{Decoder, Frame, encode_frame};
use refusal::Refusal;
use std::io::Read;
use told::{Bytes, Refused};
use types::consts::MIN_PREAMBLE_COUNT;
use types::consts::commands::READ_DEVICE_VARS_WITH_STATUS;
use types::{Address, FrameType, MasterRole};

// A call that writes gets a buffer and tells how many bytes it wrote to its front, or why it wrote none. That a
// slice lies within the buffer is proved: of `n` no more is taken than there is. Here and below a line that cannot be
// written keeps no later one from being tried.
fn tell_written(rt: &impl Print, name: &str, written: Result<usize, Refusal>, buffer: &[u8]) {
    let _ = match written {
        Ok(n) => println!(rt; "{name}:{}", Bytes(&buffer[..n.min(buffer.len())])),
        Err(refusal) => println!(rt; "{name}:{}", Refused(refusal)),
    };
}

// The request for variables 0 and 1 of one device: first the command's data, then the frame around them.
fn ask(rt: &impl Print) {
    let address = Address::Long {
        master: MasterRole::Primary,
        burst: false,
        manufacturer_id: 0x26,
        device_type: 0x0A,
        device_id: 0x010203,
    };
    let mut data = [0u8; 2];
    let mut buffer = [0u8; 32];
    let written = read_device_vars::encode_data(&[0, 1], &mut data).and_then(|_| {
        encode_frame(
            FrameType::Request,
            address,
            READ_DEVICE_VARS_WITH_STATUS,
            &data,
            MIN_PREAMBLE_COUNT,
            &mut buffer,
        )
    });
    tell_written(rt, "request", written, &buffer);
}

// What a value is worth. Good, poor and fixed carry the value, a float, for whoever calculates with it.
fn worth(reading: Reading) -> &'static str {
    match reading {
        Reading::Good(_) => "good",
        Reading::Poor(_) => "poor",
        Reading::Fixed(_) => "fixed",
        Reading::Bad => "bad",
        Reading::Absent => "absent",
    }
}

// A response has room for eight variables, of which the first `count` were sent.
fn tell_variables(rt: &impl Print, response: &ReadDeviceVarsResponse) {
    for variable in response.variables.iter().take(response.count as usize) {
        let code = variable.device_var_code;
        let _ = println!(rt; "  variable {code}: {}", worth(variable.reading()));
    }
}

// The response that a frame carries in the mode of the HART documents. Whatever stands in its way, from the
// frame's type to the device's own error codes, comes back as a refusal.
fn tell_frame(rt: &impl Print, frame: Frame) {
    let _ = println!(rt;
        "frame: command {}, bytes of data: {}",
        frame.command, frame.length
    );
    match read_device_vars::read_response(Mode::Standard, frame) {
        Ok(response) => tell_variables(rt, &response),
        Err(refusal) => {
            let _ = println!(rt; "  no readings:{}", Refused(refusal));
        }
    }
}

// A decoder is a value: a byte takes one, and gives the one for the next byte. At most bytes nothing is heard. Behind
// a frame or a refusal the decoder looks for the next frame.
fn listen(rt: &impl Print, line: &[u8]) {
    let mut decoder = Decoder::new();
    for byte in line {
        let fed = decoder.feed(*byte);
        match fed.heard {
            Ok(None) => {}
            Ok(Some(frame)) => tell_frame(rt, frame),
            Err(refusal) => {
                let _ = println!(rt; "line:{}", Refused(refusal));
            }
        }
        // Behind the match: in front of it what was heard is copied once more.
        decoder = fed.next;
    }
}

// The request of command 11. In the mode of the HART documents a small letter has no code.
fn ask_by_tag(rt: &impl Print, tag: [u8; 8]) {
    let mut buffer = [0u8; 6];
    let written = read_unique_id_by_tag::encode_data(Mode::Standard, tag, &mut buffer);
    tell_written(rt, "tag", written, &buffer);
}

// Reads until there is no room left, or no more to read. std's `read_to_end` wants a Vec, and nothing here allocates.
fn read(from: &mut impl Read, line: &mut [u8]) -> usize
    ensures { result ≤ length line.new }
{
    let mut got = 0;
    while got < line.len() {
        match from.read(&mut line[got..]) {
            Ok(n) if n > 0 => got += n,
            _ => break,
        }
    }
    got
}

fn main(rt: HostRuntime) {
    ask(&rt);
    let mut line = [0u8; 4096];
    let n = read(&mut rt.stdin(), &mut line);
    listen(&rt, &line[..n]);
    ask_by_tag(&rt, *b"TANK 7  ");
    ask_by_tag(&rt, *b"TANk 7  ");
}
