// What a line of bytes means, and what a decoder holds and answers. Here are the decoder's types and no
// code but the empty frame and what a head says; specs/ has the definitions, proofs/ the theorems, and the code of a byte is in
// `framing`.
#![tactic(auto)]

mod claim;
mod frame;
mod moved;
mod state;

pub use claim::Claim;
pub use frame::Frame;
pub use moved::{Completed, Moved};
pub use state::{Head, PREAMBLE_CAP, ROOM, State};
