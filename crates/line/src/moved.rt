// What a byte does to a state.
use crate::state::{Head, State};
use refusal::Refusal;

// A frame whose check byte was read and right. Its data are the first `length` of the data bytes.
#[derive(Clone, Copy)]
pub struct Completed {
    pub head: Head,
    pub command: u8,
    pub length: u8,
}

// The state behind a byte, and what the byte ended: nothing, a frame, or a piece that is refused.
#[derive(Clone, Copy)]
pub struct Moved {
    pub state: State,
    pub ended: Result<Option<Completed>, Refusal>,
}
