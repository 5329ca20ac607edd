// What C and Rust hosts call, by these names; the crate `hart_c` exports them. include/hart.h says how they are called;
// document 01, 'For the C host'.
#![tactic(auto)]

ghost use Rattle.std.specs.Prelude.{◌≡◌};
ghost use Rattle.host.specs.Block.{tells, fed_block, clears, cleared_block};

use host::{clear_block, feed_block};

// One byte in: 0, the length of the record in the room, or 1000 and a refusal's number.
pub fn hart_feed(block: &mut [u8], room: &mut [u8], byte: u8) -> u32
    ensures { tells result block.new room.new ≡ fed_block block.old room.old byte }
{
    feed_block(block, room, byte)
}

// Makes a block that holds a new decoder: 0, or 1008 for a wrong length.
pub fn hart_clear(block: &mut [u8]) -> u32
    ensures { clears result block.new ≡ cleared_block block.old }
{
    clear_block(block)
}
