// From frames to bytes (encode.rs): head, data, check, each written at its place in the lent buffer.
ghost use Rattle.std.specs.Prelude.{◌≡◌, ◌+◌, ◌≤◌, length};
ghost use Rattle.refusal.specs.Outcome.{ends, reply_of};
ghost use Rattle.octets.specs.Check.{check};
ghost use Rattle.octets.specs.Put.{put, put_if_fits};
ghost use Rattle.types.specs.Address.{address_length, is_long};
ghost use Rattle.line.specs.Layout.{most_data, preambles};
ghost use Rattle.line.specs.Encode.{wire_of, layout, total, encoded};
ghost use Rattle.framing.specs.Code.{head, data_place, sealed};

use octets::{checksum_from, copy_into, fill};
use refusal::Refusal;
use types::consts::{MAX_DATA_LENGTH, PREAMBLE_BYTE};
use types::{Address, FrameType, Opening, address_length, delimiter_byte};

// What stands in front of a frame's data, but for their count.
#[derive(Clone, Copy)]
pub(crate) struct Front {
    pub frame_type: FrameType,
    pub address: Address,
    pub command: u8,
    pub preamble_count: u8,
}

fn length_of(address: Address) -> usize
    ensures { result ≡ address_length (is_long address) }
{
    address_length(address.is_long()) as usize
}

fn write_preambles(buf: &mut [u8], n: usize)
    requires { n ≤ length buf.old }
    ensures { buf.new ≡ put buf.old 0 (preambles n) }
{
    fill(&mut buf[0..n], PREAMBLE_BYTE);
}

// Everything in front of the data; returns the place where the data begin. It takes their count and
// not the data, so that someone else can put them in place.
fn write_head(front: Front, count: u8, buf: &mut [u8]) -> usize
    requires { data_place front.address front.preamble_count ≤ length buf.old }
    ensures { (result ≡ data_place front.address front.preamble_count) × (buf.new ≡ put buf.old 0 (head front.frame_type front.address front.command count front.preamble_count)) }
{
    let pos = front.preamble_count as usize;
    write_preambles(buf, pos);
    let opening = Opening {
        frame_type: front.frame_type,
        is_long: front.address.is_long(),
    };
    buf[pos] = delimiter_byte(opening);
    let after = pos + 1;
    let _ = front.address.encode(&mut buf[after..]);
    let next = after + length_of(front.address);
    buf[next] = front.command;
    buf[next + 1] = count;
    next + 2
}

// The check of a frame's head. Command and count, its last bytes, are taken by themselves: all of it was
// stored byte by byte just before, and a read of eight bytes at once would wait for those stores.
fn check_of_head(head: &[u8]) -> u8
    requires { 2 ≤ length head.now }
    ensures { result ≡ check head.now }
{
    let next = head.len() - 2;
    checksum_from(0, &head[..next]) ^ head[next] ^ head[next + 1]
}

// Head, data and check to the front of the buffer.
fn write_frame(front: Front, data: &[u8], buf: &mut [u8])
    requires { (length «data».now ≤ most_data) × (total front.preamble_count (is_long front.address) (length «data».now) ≤ length buf.old) }
    ensures { buf.new ≡ put buf.old 0 (layout front.preamble_count (wire_of front.frame_type front.address front.command «data».now)) }
{
    let from = front.preamble_count as usize;
    let at = write_head(front, data.len() as u8, buf);
    let checksum = checksum_from(check_of_head(&buf[from..at]), data);
    copy_into(data, buf, at);
    let to = at + data.len();
    buf[to] = checksum;
}

// The whole frame to the front of the buffer, and how many bytes that is.
pub fn encode_frame(
    frame_type: FrameType,
    address: Address,
    command: u8,
    data: &[u8],
    preamble_count: u8,
    buf: &mut [u8],
) -> Result<usize, Refusal>
    ensures { ends (reply_of result) buf.new ≡ encoded frame_type address command «data».now preamble_count buf.old }
{
    if data.len() > MAX_DATA_LENGTH {
        return Err(Refusal::DataTooLong);
    }
    let total = preamble_count as usize + 4 + length_of(address) + data.len();
    if buf.len() < total {
        return Err(Refusal::BufferTooSmall);
    }
    let front = Front {
        frame_type,
        address,
        command,
        preamble_count,
    };
    write_frame(front, data, buf);
    Ok(total)
}

// The head of a frame whose data someone else puts in place, where it has room; returns where they begin.
pub(crate) fn open_frame(front: Front, count: u8, buf: &mut [u8]) -> usize
    ensures { (result ≡ data_place front.address front.preamble_count) × (buf.new ≡ put_if_fits buf.old 0 (head front.frame_type front.address front.command count front.preamble_count)) }
{
    let at = front.preamble_count as usize + 3 + length_of(front.address);
    if buf.len() < at {
        return at;
    }
    write_head(front, count, buf)
}

// The check of what stands from one place up to another, written behind it where there is room.
pub(crate) fn seal_frame(buf: &mut [u8], from: usize, to: usize)
    ensures { buf.new ≡ sealed buf.old from to }
{
    if to < from {
        return;
    }
    if buf.len() <= to {
        return;
    }
    buf[to] = checksum_from(0, &buf[from..to]);
}
