// The static library for C and Rust hosts: the two calls of the crate `hart`, exported by their names. include/hart.h
// says how they are called; for C a slice is a pointer and then its length. A crate is a library or a static library
// and not both, so each export here only hands its call on.
#![tactic(auto)]

ghost use Rattle.std.specs.Prelude.{◌≡◌};
ghost use Rattle.host.specs.Block.{tells, fed_block, clears, cleared_block};

// One byte in: 0, the length of the record in the room, or 1000 and a refusal's number.
#[unsafe(no_mangle)]
pub extern "C" fn hart_feed(block: &mut [u8], room: &mut [u8], byte: u8) -> u32
    ensures { tells result block.new room.new ≡ fed_block block.old room.old byte }
{
    hart::hart_feed(block, room, byte)
}

// Makes a block that holds a new decoder: 0, or 1008 for a wrong length.
#[unsafe(no_mangle)]
pub extern "C" fn hart_clear(block: &mut [u8]) -> u32
    ensures { clears result block.new ≡ cleared_block block.old }
{
    hart::hart_clear(block)
}
