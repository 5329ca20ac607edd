// The answers that are not written yet, and what keeps a line from an answer.
use crate::bytes::Bytes;
use crate::given::NoCase;
use octets::hex;
use std::fmt;
use std::fmt::Write;

// Room for answers.
const OUT_SIZE: usize = 65536;

// No answer is longer. A line of 4096 bytes that are fed can end a frame that was begun before it: 537
// characters at most. Behind that a token of 9 characters takes a byte at least, and a frame, of 27
// characters and 2 for each byte of data, takes 10 bytes and its data. The dump says less: its lines can end
// a frame too, 551 characters, and behind that a line of 26 takes 6 bytes at least. A buffer has 1024 bytes,
// and 12 fields before it take 24 characters each at most; a block and a room take fewer than 4200, a payload
// fewer than 8200.
const ANSWER_MAX: usize = 40960;

pub(crate) enum Failed {
    // The line is no case.
    NoCase,
    // The answer is longer than its room.
    NoRoom,
}

pub(crate) type Answered = Result<(), Failed>;

impl From<NoCase> for Failed {
    fn from(_: NoCase) -> Failed {
        Failed::NoCase
    }
}

impl From<fmt::Error> for Failed {
    fn from(_: fmt::Error) -> Failed {
        Failed::NoRoom
    }
}

// The last of the answers begins at `answer`.
#[derive(Drop)]
pub(crate) struct Output {
    bytes: Bytes<OUT_SIZE>,
    answer: usize,
}

impl Output {
    pub(crate) fn new() -> Output {
        Output {
            bytes: Bytes::new(),
            answer: 0,
        }
    }

    pub(crate) fn put(&mut self, byte: u8) -> fmt::Result {
        self.bytes.push(byte).or(Err(fmt::Error))
    }

    // A byte as two digits.
    pub(crate) fn put_hex(&mut self, byte: u8) -> fmt::Result {
        self.bytes.extend(&hex(byte)).or(Err(fmt::Error))
    }

    // The room that is left; no answer is longer. What a call wrote at its front is put by `grow`.
    pub(crate) fn spare(&mut self) -> &mut [u8] {
        self.bytes.spare()
    }

    pub(crate) fn grow(&mut self, count: usize) -> fmt::Result {
        self.bytes.grow(count).or(Err(fmt::Error))
    }

    // Parts what follows from what the answer has, if that is anything.
    pub(crate) fn put_gap(&mut self) -> fmt::Result {
        if self.answer < self.bytes.len() {
            self.put(b' ')?;
        }
        Ok(())
    }

    // Where the answer has nothing, a dot is its answer.
    pub(crate) fn put_silence(&mut self) -> fmt::Result {
        if self.answer == self.bytes.len() {
            self.put(b'.')?;
        }
        Ok(())
    }

    pub(crate) fn end_answer(&mut self) -> fmt::Result {
        self.put(b'\n')?;
        self.answer = self.bytes.len();
        Ok(())
    }

    // The longest answer might not fit behind what is there.
    pub(crate) fn is_full(&self) -> bool {
        self.bytes.len() > OUT_SIZE - ANSWER_MAX
    }

    pub(crate) fn bytes(&self) -> &[u8] {
        self.bytes.as_slice()
    }

    pub(crate) fn clear(&mut self) {
        self.bytes.clear();
        self.answer = 0;
    }
}

impl Write for Output {
    fn write_str(&mut self, text: &str) -> fmt::Result {
        self.bytes.extend(text.as_bytes()).or(Err(fmt::Error))
    }
}
