// What one byte does: to the state, which is a small value, and to the bytes beside it, which are
// lent and never copied. Document 01, 'How a run of bytes is cut'.
ghost use Rattle.std.specs.Prelude.{◌≡◌, set};
ghost use Rattle.types.specs.Delimiter.{delimiter_of};
ghost use Rattle.line.specs.machine.Step.{going, over, hunted, preambled, delimited, mixed, addressed, byte_counted, loaded, checked, moved_at, stored_at};

use line::{Completed, Head, Moved, PREAMBLE_CAP, State};
use refusal::Refusal;
use types::consts::{MIN_PREAMBLE_COUNT, PREAMBLE_BYTE};
use types::{HEAD_ROOM, head_length, read_delimiter};

// The piece goes on.
fn going(state: State) -> Moved
    ensures { result ≡ going state }
{
    Moved {
        state,
        ended: Ok(None),
    }
}

fn piece_over(ended: Result<Option<Completed>, Refusal>) -> Moved
    ensures { result ≡ over ended }
{
    Moved {
        state: State::Hunting,
        ended,
    }
}

fn hunting(byte: u8) -> Moved
    ensures { result ≡ hunted byte }
{
    going(if byte == PREAMBLE_BYTE {
        State::Preamble(1)
    } else {
        State::Hunting
    })
}

fn process_delimiter(byte: u8) -> Moved
    ensures { result ≡ delimited byte (delimiter_of byte) }
{
    match read_delimiter(byte) {
        Some(opening) => going(State::Address {
            head: Head {
                frame_type: opening.frame_type,
                is_long: opening.is_long,
                check: byte,
            },
            received: 0,
        }),
        None => piece_over(Err(Refusal::InvalidDelimiter(byte))),
    }
}

// The Rust counts on, and its 8 bits overflow at the 256th FF; here the count stays at its cap.
fn preamble(count: u8, byte: u8) -> Moved
    ensures { result ≡ preambled count byte }
{
    if byte == PREAMBLE_BYTE {
        return going(State::Preamble(if count < PREAMBLE_CAP {
            count + 1
        } else {
            PREAMBLE_CAP
        }));
    }
    if count < MIN_PREAMBLE_COUNT {
        return going(State::Hunting);
    }
    process_delimiter(byte)
}

// One byte more in the running check.
fn mix(head: Head, byte: u8) -> Head
    ensures { result ≡ mixed head byte }
{
    Head {
        check: head.check ^ byte,
        ..head
    }
}

fn address(head: Head, received: u8, byte: u8) -> Moved
    ensures { result ≡ addressed head received byte }
{
    let mixed = mix(head, byte);
    going(if received < head_length(head.opening()) - 1 {
        State::Address {
            head: mixed,
            received: received + 1,
        }
    } else {
        State::Command { head: mixed }
    })
}

fn byte_count(head: Head, command: u8, byte: u8) -> Moved
    ensures { result ≡ byte_counted head command byte }
{
    let mixed = mix(head, byte);
    going(if byte == 0 {
        State::Checksum {
            head: mixed,
            command,
            expected: 0,
        }
    } else {
        State::Data {
            head: mixed,
            command,
            expected: byte,
            received: 0,
        }
    })
}

fn data(head: Head, command: u8, expected: u8, received: u8, byte: u8) -> Moved
    ensures { result ≡ loaded head command expected received byte }
{
    let mixed = mix(head, byte);
    going(if received as usize + 1 < expected as usize {
        State::Data {
            head: mixed,
            command,
            expected,
            received: received + 1,
        }
    } else {
        State::Checksum {
            head: mixed,
            command,
            expected,
        }
    })
}

fn checksum(head: Head, command: u8, expected: u8, byte: u8) -> Moved
    ensures { result ≡ checked head command expected byte }
{
    piece_over(if byte == head.check {
        Ok(Some(Completed {
            head,
            command,
            length: expected,
        }))
    } else {
        Err(Refusal::ChecksumMismatch {
            expected: head.check,
            actual: byte,
        })
    })
}

// A byte is kept at its place, where there is one. (By `get_mut` the proof would not learn that else nothing changed.)
fn keep(bytes: &mut [u8], place: usize, byte: u8)
    ensures { bytes.new ≡ set bytes.old place byte }
{
    if place < bytes.len() {
        bytes[place] = byte;
    }
}

// One byte into any state. An address or data byte is kept at its place; any other byte is in the state
// alone. Where a piece is over the bytes are left for the caller to take the frame from, and it is the
// caller who then clears them.
pub fn step(state: State, bytes: &mut [u8], byte: u8) -> Moved
    ensures value { result ≡ moved_at state byte }
    ensures bytes_after { bytes.new ≡ stored_at state bytes.old byte }
{
    match state {
        State::Hunting => hunting(byte),
        State::Preamble(count) => preamble(count, byte),
        State::Address { head, received } => {
            keep(bytes, received as usize, byte);
            address(head, received, byte)
        }
        State::Command { head } => going(State::ByteCount {
            head: mix(head, byte),
            command: byte,
        }),
        State::ByteCount { head, command } => byte_count(head, command, byte),
        State::Data {
            head,
            command,
            expected,
            received,
        } => {
            keep(bytes, HEAD_ROOM + received as usize, byte);
            data(head, command, expected, received, byte)
        }
        State::Checksum {
            head,
            command,
            expected,
        } => checksum(head, command, expected, byte),
    }
}
