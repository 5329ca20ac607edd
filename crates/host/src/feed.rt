// The two calls. Each takes a block of any length and content, and a refused one writes nothing.
ghost use Rattle.std.specs.Prelude.{◌≡◌, drop};
ghost use Rattle.line.specs.machine.Feed.{settled};
ghost use Rattle.host.specs.Code.{told_number};
ghost use Rattle.host.specs.Block.{header_size, tells, recorded, fed_block, clears, cleared_block};

use crate::block_header::HEADER_SIZE;
use crate::load::{BLOCK_SIZE, Block, load, store_state};
use crate::records::{Room, write_record};
use framing::step;
use line::Moved;
use octets::fill;
use refusal::Refusal;

// What C is told: the length of the record, or 1000 and the number of the refusal.
fn told(answer: Result<u32, Refusal>) -> u32
    ensures { result ≡ told_number answer }
{
    match answer {
        Ok(length) => length,
        Err(refusal) => 1000 + refusal.number(),
    }
}

#[tactic(auto, unfolding(crate::specs::Block::cleared_block))]
fn clear(block: &mut [u8]) -> Result<u32, Refusal>
    ensures { clears (told_number result) block.new ≡ cleared_block block.old }
{
    if block.len() != BLOCK_SIZE {
        return Err(Refusal::BadState);
    }
    fill(block, 0);
    Ok(0)
}

// Makes a block hold a new decoder, whatever it held.
pub fn clear_block(block: &mut [u8]) -> u32
    ensures { clears result block.new ≡ cleared_block block.old }
{
    told(clear(block))
}

// What a byte came to, in the block and in the room: a piece that is over leaves a new decoder.
fn settle(moved: Moved, block: &mut Block, room: &mut Room) -> u32
    ensures { tells result block.new room.new ≡ recorded (settled moved (drop header_size block.old)) room.old }
{
    let length = write_record(moved.ended, block, room);
    match moved.ended {
        Ok(None) => store_state(moved.state, block),
        _ => fill(block, 0),
    }
    length
}

fn feed(block: &mut [u8], room: &mut [u8], byte: u8) -> Result<u32, Refusal>
    ensures { tells (told_number result) block.new room.new ≡ fed_block block.old room.old byte }
{
    let Some(block) = block.as_mut_array() else {
        return Err(Refusal::BadState);
    };
    let Some(state) = load(block) else {
        return Err(Refusal::BadState);
    };
    let Some(room) = room.first_chunk_mut() else {
        return Err(Refusal::BufferTooSmall);
    };
    let moved = step(state, &mut block[HEADER_SIZE..], byte);
    Ok(settle(moved, block, room))
}

// One byte in. Returns 0 for silence, the length of the record at the front of the room, or a refusal
// of the call itself, after which the byte is not taken.
pub fn feed_block(block: &mut [u8], room: &mut [u8], byte: u8) -> u32
    ensures { tells result block.new room.new ≡ fed_block block.old room.old byte }
{
    told(feed(block, room, byte))
}
