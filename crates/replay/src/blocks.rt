// The calls of a C host over a block of the case's own, letters o and c. The block is a copy of the case's
// bytes, since the call writes to it.
use crate::buffer::Buffer;
use crate::given::Given;
use crate::output::{Answered, Output};
use hart::{hart_clear, hart_feed};
use std::fmt::Write;

pub(crate) fn feed_copy(mut given: Given, out: &mut Output) -> Answered {
    let mut room = given.room()?;
    let byte = given.byte()?;
    let mut block = Buffer::holding(given.rest())?;
    let told = hart_feed(block.lent(), room.lent(), byte);
    write!(out, "{told} {block} {room}")?;
    Ok(())
}

pub(crate) fn clear_copy(mut given: Given, out: &mut Output) -> Answered {
    let mut block = Buffer::holding(given.rest())?;
    let told = hart_clear(block.lent());
    write!(out, "{told} {block}")?;
    Ok(())
}
