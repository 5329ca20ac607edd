// The dump's text, a line at a time: document 01, 'Examples'. A line is words; behind each stands a
// mark, a space or at the line's end a newline.
ghost use Rattle.std.specs.Prelude.{◌≡◌, true, [], ◌∷◌, ◌++◌, ◌+◌, ◌*◌, ◌≤◌, ◌<◌, leb, length, take, drop};
ghost use Rattle.refusal.specs.Outcome.{ends, reply_of};
ghost use Rattle.types.specs.Address.{address_length, head_room};
ghost use Rattle.line.specs.Layout.{most_data};
ghost use Rattle.line.specs.machine.Room.{decoder_room};
ghost use Rattle.line.specs.machine.Feed.{wire_in, event_of};
ghost use Rattle.octets.specs.Figures.{decimal as decimalText, hex as hexText};
ghost use Rattle.dump_lines.specs.Text.{line_max, address_text, data_text, frame_line, refusal_line, line_of};
ghost use Rattle.dump_lines.specs.Text.{letter as typeLetter};
ghost use Rattle.dump_lines.specs.Writing.{end_written};
ghost use Rattle.dump_lines.specs.Code.{start, Writes, WritesOn};

use crate::Totals;
use line::{Completed, ROOM};
use octets::{copy_into, decimal, hex};
use refusal::Refusal;
use types::consts::MAX_DATA_LENGTH;
use types::{Address, FrameType, HEAD_ROOM, LONG_ADDRESS_LENGTH};

// No line is longer: a frame with a place of 20 digits, a long address, a command of 3 digits and as many data
// as there can be, behind each word a space or the newline.
pub const LINE_MAX: usize = 2
    + 21
    + 2
    + (2 * LONG_ADDRESS_LENGTH + 1)
    + 4
    + (2 * MAX_DATA_LENGTH + 1);

const SPACE: u8 = b' ';

const NEWLINE: u8 = b'\n';

// A buffer that is lent, and the place behind what was written into it.
#[derive(Drop)]
pub(crate) struct Writer<'a> {
    pub(crate) out: &'a mut [u8],
    pub(crate) at: usize,
}

impl Writer<'_> {
    pub(crate) fn has_room(&self) -> bool
        requires { self.now.at ≤ length self.now.out.now }
        ensures { result ≡ leb (self.now.at + line_max) (length self.now.out.now) }
    {
        LINE_MAX <= self.out.len() - self.at
    }

    // The line of what a byte ended, if that has one.
    pub(crate) fn line(
        &mut self,
        place: u64,
        ended: Result<Option<Completed>, Refusal>,
        bytes: &[u8; ROOM],
    )
        requires { self.old.at + line_max ≤ length self.old.out.now }
        ensures { WritesOn self.old (line_of place (event_of ended bytes.now)) self.new }
    {
        match ended {
            Ok(None) => {}
            Ok(Some(completed)) => self.frame(place, completed, bytes),
            Err(refusal) => self.refusal(place, refusal),
        }
    }

    fn letter(&mut self, letter: u8, mark: u8)
        requires { self.old.at + 1 < length self.old.out.now }
        ensures { WritesOn self.old ((letter ∷ []) ++ (mark ∷ [])) self.new }
    {
        self.out[self.at] = letter;
        self.out[self.at + 1] = mark;
        self.at += 2;
    }

    fn word(&mut self, word: &[u8], mark: u8)
        requires { self.old.at + length word.now < length self.old.out.now }
        ensures { WritesOn self.old (word.now ++ (mark ∷ [])) self.new }
    {
        copy_into(word, self.out, self.at);
        self.at += word.len();
        self.out[self.at] = mark;
        self.at += 1;
    }

    fn number(&mut self, number: u64, mark: u8)
        requires { self.old.at + 20 < length self.old.out.now }
        ensures writes { WritesOn self.old (decimalText number ++ (mark ∷ [])) self.new }
        ensures upper_bound { self.new.at ≤ self.old.at + 21 }
    {
        self.word(decimal(number).as_slice(), mark);
    }

    fn hex(&mut self, bytes: &[u8], mark: u8)
        requires { self.old.at + 2 * length bytes.now < length self.old.out.now }
        ensures { WritesOn self.old (hexText bytes.now ++ (mark ∷ [])) self.new }
    {
        for byte in bytes {
            let digits = hex(*byte);
            self.out[self.at] = digits[0];
            self.out[self.at + 1] = digits[1];
            self.at += 2;
        }
        self.out[self.at] = mark;
        self.at += 1;
    }

    // As our writer writes it, so that the bits that say nothing are zero.
    fn address(&mut self, bytes: &[u8; ROOM], long: bool, mark: u8)
        requires { self.old.at + 2 * address_length true < length self.old.out.now }
        ensures writes { WritesOn self.old (address_text long (take (address_length long) bytes.now) ++ (mark ∷ [])) self.new }
        ensures upper_bound { self.new.at ≤ self.old.at + 2 * address_length true + 1 }
    {
        if let Ok((address, used)) = Address::decode(bytes, long) {
            let mut written = [0u8; LONG_ADDRESS_LENGTH];
            let _ = address.encode(&mut written);
            self.hex(&written[..used], mark);
        }
    }

    fn data(&mut self, bytes: &[u8; ROOM], n: u8, mark: u8)
        requires { self.old.at + 2 * most_data < length self.old.out.now }
        ensures { WritesOn self.old (data_text (take n (drop head_room bytes.now)) ++ (mark ∷ [])) self.new }
    {
        if n == 0 {
            return self.letter(b'-', mark);
        }
        self.hex(&bytes[HEAD_ROOM..HEAD_ROOM + n as usize], mark);
    }

    // What the line of a piece begins with: its letter and the place.
    fn start(&mut self, letter: u8, place: u64)
        requires { self.old.at + 22 < length self.old.out.now }
        ensures writes { WritesOn self.old (start letter place) self.new }
        ensures upper_bound { self.new.at ≤ self.old.at + 23 }
    {
        self.letter(letter, SPACE);
        self.number(place, SPACE);
    }

    // The frame that the bytes hold at its check byte.
    fn frame(&mut self, place: u64, completed: Completed, bytes: &[u8; ROOM])
        requires { self.old.at + line_max ≤ length self.old.out.now }
        ensures { WritesOn self.old (frame_line place (wire_in completed bytes.now)) self.new }
    {
        let head = completed.head;
        self.start(b'F', place);
        self.letter(letter(head.frame_type), SPACE);
        self.address(bytes, head.is_long, SPACE);
        self.number(completed.command as u64, SPACE);
        self.data(bytes, completed.length, NEWLINE);
    }

    // A line's bytes are refused with 4 or 5 alone; any other refusal has no line.
    fn refusal(&mut self, place: u64, refusal: Refusal)
        requires { self.old.at + line_max ≤ length self.old.out.now }
        ensures { WritesOn self.old (refusal_line place refusal) self.new }
    {
        match refusal {
            Refusal::InvalidDelimiter(byte) => {
                self.start(b'D', place);
                self.hex(&[byte], NEWLINE);
            }
            Refusal::ChecksumMismatch { expected, actual } => {
                self.start(b'C', place);
                self.hex(&[expected], SPACE);
                self.hex(&[actual], NEWLINE);
            }
            _ => {}
        }
    }
}

fn letter(frame_type: FrameType) -> u8
    ensures { result ≡ typeLetter frame_type }
{
    match frame_type {
        FrameType::Request => b'Q',
        FrameType::Response => b'R',
        FrameType::Burst => b'B',
    }
}

// The last line, with the totals, at the front of the buffer; 2 where the longest line would not fit.
pub(crate) fn write_end(totals: Totals, out: &mut [u8]) -> Result<usize, Refusal>
    ensures { ends (reply_of result) out.new ≡ end_written totals.bytes totals.frames totals.refusals out.old }
{
    if out.len() < LINE_MAX {
        return Err(Refusal::BufferTooSmall);
    }
    let mut writer = Writer { out, at: 0 };
    writer.word(b"end", SPACE);
    writer.number(totals.bytes, SPACE);
    writer.number(totals.frames, SPACE);
    writer.number(totals.refusals, NEWLINE);
    Ok(writer.at)
}
