// What a piece that is over leaves in the room for records.
ghost use Rattle.std.specs.Prelude.{◌≡◌, ◌+◌, ◌≤◌, length, drop};
ghost use Rattle.octets.specs.Put.{put};
ghost use Rattle.types.specs.Address.{address_length, is_long, address_bytes};
ghost use Rattle.line.specs.machine.Feed.{wire_in, event_of};
ghost use Rattle.host.specs.Block.{header_size};
ghost use Rattle.host.specs.Record.{frame_first, frame_record, refusal_record, record_of};

use crate::block_header::{HEADER_SIZE, long_bit};
use crate::load::Block;
use line::Completed;
use refusal::Refusal;
use types::consts::MAX_DATA_LENGTH;
use types::{Address, HEAD_ROOM, Opening, address_length};

// First byte, address, command, count and data.
pub const RECORD_ROOM: usize = 1 + HEAD_ROOM + 2 + MAX_DATA_LENGTH;

// What of a host's room is written: it has all that the longest record takes.
pub(crate) type Room = [u8; RECORD_ROOM];

fn write_address(address: Address, room: &mut Room)
    ensures { room.new ≡ put room.old 1 (address_bytes address) }
{
    let _ = address.encode(&mut room[1..]);
}

// The first byte of a frame's record.
fn frame_first(opening: Opening) -> u8
    ensures { result ≡ frame_first opening }
{
    let frame_type = opening.frame_type;
    (frame_type.number() * 2 + long_bit(opening.is_long)) * 8
}

// The data, byte by byte: the copy of a slice is a call of memmove, and all that the archive for C needs of the C
// library is memset (include/hart.h).
fn write_data(data: &[u8], room: &mut Room, at: usize)
    requires { at + length «data».now ≤ length room.old }
    ensures { room.new ≡ put room.old at «data».now }
{
    for (i, byte) in data.iter().enumerate() {
        room[at + i] = *byte;
    }
}

// A frame's record, and how many bytes it has. The address goes through our own reader and writer, so
// that bits that say nothing are zero.
fn write_frame(completed: Completed, block: &Block, room: &mut Room) -> u32
    ensures { let written = frame_record (wire_in completed (drop header_size block.now)) in (result ≡ length written) × (room.new ≡ put room.old 0 written) }
{
    let bytes = &block[HEADER_SIZE..];
    let Completed {
        head,
        command,
        length: count,
    } = completed;
    let long = head.is_long;
    room[0] = frame_first(head.opening());
    let address = Address::from_bytes([bytes[0], bytes[1], bytes[2], bytes[3], bytes[4]], long);
    write_address(address, room);
    let next = 1 + address_length(long) as usize;
    room[next] = command;
    room[next + 1] = count;
    let at = next + 2;
    let to = HEAD_ROOM + count as usize;
    write_data(&bytes[HEAD_ROOM..to], room, at);
    (at + count as usize) as u32
}

// The record of a refusal. The line's bytes are refused with 4 and 5 alone.
fn write_refusal(refusal: Refusal, room: &mut Room) -> u32
    ensures { (result ≡ length (refusal_record refusal)) × (room.new ≡ put room.old 0 (refusal_record refusal)) }
{
    match refusal {
        Refusal::InvalidDelimiter(byte) => {
            room[0] = 0x40;
            room[1] = byte;
            2
        }
        Refusal::ChecksumMismatch { expected, actual } => {
            room[0] = 0x80;
            room[1] = expected;
            room[2] = actual;
            3
        }
        _ => 0,
    }
}

// The record of what a byte ended, at the front of the room, and its length: silence has none.
#[tactic(auto, unfolding(crate::specs::Record::record_of))]
pub(crate) fn write_record(
    ended: Result<Option<Completed>, Refusal>,
    block: &Block,
    room: &mut Room,
) -> u32
    ensures { let written = record_of (event_of ended (drop header_size block.now)) in (result ≡ length written) × (room.new ≡ put room.old 0 written) }
{
    match ended {
        Ok(None) => 0,
        Ok(Some(completed)) => write_frame(completed, block, room),
        Err(refusal) => write_refusal(refusal, room),
    }
}
