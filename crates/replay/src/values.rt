// A decoder as a case gives it, letter z: any value of the type, also one that no run of bytes leads to.
use crate::given::{Given, NoCase};
use framing::{Decoder, Head, State};

// Phases are numbered as in a host's block: document 01, 'For the C host'. Each takes the fields that it
// has.
fn read_state(given: &mut Given) -> Result<State, NoCase> {
    let phase = given.byte()?;
    let head = Head {
        frame_type: given.frame_type()?,
        is_long: given.flag()?,
        check: given.byte()?,
    };
    let [count, command, expected] = given.array::<3>()?;
    match phase {
        0 => Ok(State::Hunting),
        1 => Ok(State::Preamble(count)),
        2 => Ok(State::Address {
            head,
            received: count,
        }),
        3 => Ok(State::Command { head }),
        4 => Ok(State::ByteCount { head, command }),
        5 => Ok(State::Data {
            head,
            command,
            expected,
            received: count,
        }),
        6 => Ok(State::Checksum {
            head,
            command,
            expected,
        }),
        _ => Err(NoCase),
    }
}

pub(crate) fn read_decoder(given: &mut Given) -> Result<Decoder, NoCase> {
    Ok(Decoder {
        state: read_state(given)?,
        bytes: given.padded()?,
    })
}
