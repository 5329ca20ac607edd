// A decoder in a host's own memory: the block, the record, and the two calls over them that the crate `hart`
// gives to C. Document 01, 'For the C host'.
#![tactic(auto)]

mod block_header;
mod feed;
mod load;
mod records;

pub use feed::{clear_block, feed_block};
pub use load::BLOCK_SIZE;
pub use records::RECORD_ROOM;
