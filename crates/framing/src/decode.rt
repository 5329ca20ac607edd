// The decoder by value: a byte takes one decoder and gives the next.
ghost use Rattle.std.specs.Prelude.{◌≡◌};
ghost use Rattle.line.specs.machine.Feed.{settled};
ghost use Rattle.framing.specs.Feed.{fresh_decoder, decoder_reachable, renamed, fed_of, fed};

use crate::byte::step;
use crate::frame::frame_of;
use crate::reachable::is_reachable;
use line::{Frame, Moved, ROOM, State};
use refusal::Refusal;

// The bytes are those of the address and of the data, zero where nothing was read.
#[derive(Clone, Copy)]
pub struct Decoder {
    pub state: State,
    pub bytes: [u8; ROOM],
}

// What feeding a byte comes to: what is heard, and the decoder for the next byte.
#[derive(Clone, Copy)]
pub struct Fed {
    pub heard: Result<Option<Frame>, Refusal>,
    pub next: Decoder,
}

fn ended_with(moved: Moved, bytes: [u8; ROOM]) -> Fed
    ensures { result ≡ fed_of (renamed (settled moved bytes)) }
{
    match moved.ended {
        Ok(None) => Fed {
            heard: Ok(None),
            next: Decoder {
                state: moved.state,
                bytes,
            },
        },
        Ok(Some(completed)) => Fed {
            heard: Ok(Some(frame_of(completed, &bytes))),
            next: Decoder::new(),
        },
        Err(refusal) => Fed {
            heard: Err(refusal),
            next: Decoder::new(),
        },
    }
}

impl Decoder {
    pub fn new() -> Decoder
        ensures { result ≡ fresh_decoder }
    {
        Decoder {
            state: State::Hunting,
            bytes: [0u8; ROOM],
        }
    }

    // Forgets what was read, also in a value that no run of bytes leads to.
    pub fn reset(self) -> Decoder
        ensures { result ≡ fresh_decoder }
    {
        Decoder::new()
    }

    // Whether some run of bytes leads a new decoder to this value.
    pub fn is_reachable(self) -> bool
        ensures { result ≡ decoder_reachable self }
    {
        is_reachable(self.state, &self.bytes)
    }

    // Takes one byte. A decoder that no run of bytes leads to is refused with 8 and comes back as it
    // was.
    pub fn feed(self, byte: u8) -> Fed
        ensures { result ≡ fed self byte }
    {
        // Not by the method, which takes one more copy of the bytes.
        let mut bytes = self.bytes;
        if !is_reachable(self.state, &bytes) {
            return Fed {
                heard: Err(Refusal::BadState),
                next: self,
            };
        }
        let moved = step(self.state, &mut bytes, byte);
        ended_with(moved, bytes)
    }
}
