// Bytes and frames: the decoder by value (decode.rs) over the code of one byte, the encoder (encode.rs), and
// what a response carries (ADDED). Callers find the types that a decoder answers with here too.
#![tactic(auto)]

mod byte;
mod decode;
mod encode;
mod frame;
mod payload;
mod reachable;

pub use byte::step;
pub use decode::{Decoder, Fed};
pub use encode::encode_frame;
pub use line::{Frame, Head, State};
pub use payload::{
    payload_in, payload_part, payload_verdict, request_verdict, typed_payload, typed_verdict,
};
pub use reachable::is_reachable;
