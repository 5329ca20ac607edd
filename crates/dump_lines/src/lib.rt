// The dump as a value: what it holds between two reads, and the lines and totals of the bytes that it
// is handed. Document 01, 'Examples'. The program `dump` only reads and writes.
#![tactic(auto)]

mod dump_text;

ghost use Rattle.std.specs.Prelude.{◌≡◌, List, ℕ, ◌+◌, ◌≤◌, length};
ghost use Rattle.dump_lines.specs.Code.{goes_on, WritesOn};
ghost use Rattle.refusal.specs.Outcome.{ends, reply_of};
ghost use Rattle.octets.specs.Put.{put};
ghost use Rattle.dump_lines.specs.Text.{line_max};
ghost use Rattle.line.specs.machine.Feed.{event_of};
ghost use Rattle.dump_lines.specs.Writing.{end_written};
ghost use Rattle.dump_lines.specs.Lines.{totalled, fresh_dump, next_dump, told, after, printed, taking, taken};

pub use dump_text::LINE_MAX;
use dump_text::{Writer, write_end};
use framing::step;
use line::{Completed, ROOM, State};
use refusal::Refusal;

// Each stays at the largest number that it can be.
#[derive(Clone, Copy)]
pub struct Totals {
    pub bytes: u64,
    pub frames: u64,
    pub refusals: u64,
}

// A decoder's state with its bytes, and the totals so far. The bytes so far are the next byte's place.
#[derive(Clone, Copy)]
pub struct Dump {
    state: State,
    bytes: [u8; ROOM],
    totals: Totals,
}

// How many bytes were taken, and how many were written.
#[derive(Clone, Copy)]
pub struct Taken {
    pub used: usize,
    pub written: usize,
}

impl Totals {
    // One byte more, and what it ended.
    fn count(&mut self, ended: &Result<Option<Completed>, Refusal>)
        ensures { (bs : List ℕ) → self.new ≡ totalled self.old (event_of ended.now bs) }
    {
        self.bytes = self.bytes.saturating_add(1);
        match ended {
            Ok(None) => {}
            Ok(Some(_)) => self.frames = self.frames.saturating_add(1),
            Err(_) => self.refusals = self.refusals.saturating_add(1),
        }
    }
}

// A test of its own: an arm of the nested pattern that returns would leave no fact of the others to the proof.
fn goes_on(ended: &Result<Option<Completed>, Refusal>) -> bool
    ensures { result ≡ goes_on ended.now }
{
    matches!(ended, Ok(None))
}

impl Dump {
    pub fn new() -> Dump
        ensures { result ≡ fresh_dump }
    {
        Dump {
            state: State::Hunting,
            bytes: [0u8; ROOM],
            totals: Totals {
                bytes: 0,
                frames: 0,
                refusals: 0,
            },
        }
    }

    // One byte. Where it ends a piece that has a line, the line is written, and the bytes are cleared for the next
    // frame.
    fn hear(&mut self, byte: u8, writer: &mut Writer)
        requires { writer.old.at + line_max ≤ length writer.old.out.now }
        ensures dump_after { self.new ≡ next_dump self.old byte }
        ensures writes { WritesOn writer.old (told self.old byte) writer.new }
    {
        let moved = step(self.state, &mut self.bytes, byte);
        let place = self.totals.bytes;
        self.totals.count(&moved.ended);
        self.state = moved.state;
        if goes_on(&moved.ended) {
            return;
        }
        writer.line(place, moved.ended, &self.bytes);
        self.bytes = [0u8; ROOM];
        self.state = State::Hunting;
    }

    // Takes bytes of `src` as long as behind the lines already written the longest line would fit.
    // The lines stand at the front of `out`; the rest of it is left as it was.
    pub fn take(&mut self, src: &[u8], out: &mut [u8]) -> Taken
        ensures value { result ≡ taken self.old src.now (length out.old) }
        ensures dump_after { self.new ≡ after self.old (taking self.old src.now (length out.old)) }
        ensures out_after { out.new ≡ put out.old 0 (printed self.old (taking self.old src.now (length out.old))) }
    {
        let mut writer = Writer { out, at: 0 };
        for (used, byte) in src.iter().enumerate() {
            if !writer.has_room() {
                return Taken {
                    used,
                    written: writer.at,
                };
            }
            self.hear(*byte, &mut writer);
        }
        Taken {
            used: src.len(),
            written: writer.at,
        }
    }

    // The last line, for a run that ends here; 2 where the longest line would not fit.
    pub fn end(self, out: &mut [u8]) -> Result<usize, Refusal>
        ensures { ends (reply_of result) out.new ≡ end_written self.totals.bytes self.totals.frames self.totals.refusals out.old }
    {
        write_end(self.totals, out)
    }
}
