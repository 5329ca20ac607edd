// A run of bytes fed to a decoder, each frame and each refusal of it added up. The sum has the frames
// from 2^44 on, the refusals from 2^28 on, and below them a byte or two of each frame, so that no
// decoder is spared the making of its frames.
use framing::{Decoder, Frame, State, step};
use line::ROOM;
use refusal::Refusal;
use types::HEAD_ROOM;

const FRAME: u64 = 17592186044416;

const REFUSAL: u64 = 268435456;

fn with_frame(sum: u64, command: u8, length: u8, middle: u8) -> u64 {
    sum.wrapping_add(FRAME + command as u64 + length as u64 + middle as u64)
}

fn with_heard(sum: u64, heard: Result<Option<Frame>, Refusal>) -> u64 {
    match heard {
        Ok(None) => sum,
        Ok(Some(frame)) => {
            let middle = frame.data[frame.length as usize / 2];
            with_frame(sum, frame.command, frame.length, middle)
        }
        Err(_) => sum.wrapping_add(REFUSAL),
    }
}

pub(crate) fn by_value(run: &[u8]) -> u64 {
    let mut decoder = Decoder::new();
    let mut sum: u64 = 0;
    for byte in run {
        let fed = decoder.feed(*byte);
        sum = with_heard(sum, fed.heard);
        decoder = fed.next;
    }
    sum
}

// Of what is heard number n alone, counted from 0.
pub(crate) fn lent(run: &[u8], n: usize) -> u64 {
    with_heard(0, lent::listen(run, n))
}

// The state and its bytes are the caller's, which clears the bytes behind each frame and each refusal.
pub(crate) fn by_step(run: &[u8]) -> u64 {
    let mut state = State::Hunting;
    let mut bytes = [0u8; ROOM];
    let mut sum: u64 = 0;
    for byte in run {
        let moved = step(state, &mut bytes, *byte);
        state = moved.state;
        match moved.ended {
            Ok(None) => {}
            Ok(Some(completed)) => {
                let middle = bytes[HEAD_ROOM + completed.length as usize / 2];
                sum = with_frame(sum, completed.command, completed.length, middle);
                bytes = [0u8; ROOM];
            }
            Err(_) => {
                sum = sum.wrapping_add(REFUSAL);
                bytes = [0u8; ROOM];
            }
        }
    }
    sum
}
