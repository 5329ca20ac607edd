// What a block holds, read from its header; the bytes behind it stay where they are.
ghost use Rattle.std.specs.Prelude.{◌≡◌, eqb};
ghost use Rattle.octets.specs.Put.{put};
ghost use Rattle.octets.specs.Digits.{digits};
ghost use Rattle.host.specs.Header.{header_of};
ghost use Rattle.host.specs.Block.{header_size, header_in};
ghost use Rattle.host.specs.Code.{state_accepted};

use crate::block_header::{HEADER_SIZE, header_of, state_at};
use framing::is_reachable;
use line::{ROOM, State};

pub const BLOCK_SIZE: usize = HEADER_SIZE + ROOM;

// The header, and behind it the bytes that a decoder holds.
pub(crate) type Block = [u8; BLOCK_SIZE];

// The header as a number, high byte first: six bytes, for which std has no `from_be_bytes`.
fn header_in(block: &Block) -> u64
    ensures { result ≡ header_in block.now }
{
    let mut header: u64 = 0;
    for byte in &block[..HEADER_SIZE] {
        header = header * 256 + u64::from(*byte);
    }
    header
}

// The state that the header says, if the block is one that a run of bytes leads to. Bits that are not as the
// state has them are found by making the header again.
pub(crate) fn load(block: &Block) -> Option<State>
    ensures { result ≡ state_accepted block.now }
{
    let header = header_in(block);
    let state = state_at(header);
    let accepted = is_reachable(state, &block[HEADER_SIZE..]) & (header_of(state) == header);
    accepted.then_some(state)
}

// Bytes are stored one by one. As `to_be_bytes` and a copy they would come in fours and twos, across which the next call
// would load two: that made the longest frames take 12 in 100 more time.
pub(crate) fn store_state(state: State, block: &mut Block)
    ensures { block.new ≡ put block.old 0 (digits 256 header_size (header_of state)) }
{
    let mut rest = header_of(state);
    for i in (0..HEADER_SIZE).rev() {
        block[i] = (rest % 256) as u8;
        rest /= 256;
    }
}
