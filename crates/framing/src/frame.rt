// The frame that a decoder's bytes hold, as callers see it.
ghost use Rattle.std.specs.Prelude.{◌≡◌, take, drop};
ghost use Rattle.types.specs.Address.{head_room};
ghost use Rattle.line.specs.machine.Room.{data_room};
ghost use Rattle.line.specs.machine.Frames.{padded, frame_of};
ghost use Rattle.line.specs.machine.Feed.{wire_in};

use line::{Completed, Frame, ROOM};
use octets::copy_into;
use types::consts::MAX_DATA_LENGTH;
use types::{Address, HEAD_ROOM};

// The first bytes of the data, and zeros.
fn data_of(bytes: &[u8; ROOM], n: u8) -> [u8; MAX_DATA_LENGTH]
    ensures { result ≡ padded data_room (take n (drop head_room bytes.now)) }
{
    let mut data = [0u8; MAX_DATA_LENGTH];
    let to = HEAD_ROOM + n as usize;
    copy_into(&bytes[HEAD_ROOM..to], &mut data, 0);
    data
}

// The frame that a decoder's bytes hold at its check byte.
pub(crate) fn frame_of(completed: Completed, bytes: &[u8; ROOM]) -> Frame
    ensures { result ≡ frame_of (wire_in completed bytes.now) }
{
    let address = Address::from_bytes(
        [bytes[0], bytes[1], bytes[2], bytes[3], bytes[4]],
        completed.head.is_long,
    );
    Frame {
        frame_type: completed.head.frame_type,
        address,
        command: completed.command,
        data: data_of(bytes, completed.length),
        length: completed.length,
    }
}
