// How values stand in answers.
ghost use Rattle.std.specs.Prelude.{◌≤◌, length};

use octets::hex;
use refusal::Refusal;
use std::fmt::Write;
use std::{fmt, str};

// So many bytes have their digits written together.
const PIECE: usize = 32;

// Bytes as pairs of hex digits.
#[derive(Clone, Copy, Drop)]
pub(crate) struct Hex<'a>(pub &'a [u8]);

// The same, and a dash where there are none.
#[derive(Clone, Copy, Drop)]
pub(crate) struct HexOrDash<'a>(pub &'a [u8]);

// A refusal's number and what it carries: document 01, 'What comes back'. 4 and 5 refuse a line's bytes and no
// call; what they carry is shown where they are heard.
#[derive(Drop)]
pub(crate) struct Refused(pub Refusal);

// What a call gave, or why it was refused.
#[derive(Drop)]
pub(crate) struct Told<T>(pub Result<T, Refusal>);

// All digits of a piece are handed over together: a `{:02X}` for each byte takes over ten times as long.
fn write_piece<W: fmt::Write>(piece: &[u8], f: &mut fmt::Formatter<W>) -> fmt::Result
    requires { length piece.now ≤ PIECE }
{
    let mut digits = [0; 2 * PIECE];
    for (pair, byte) in digits.chunks_exact_mut(2).zip(piece) {
        pair.copy_from_slice(&hex(*byte));
    }
    // Digits are always text.
    let text = str::from_utf8(&digits[..2 * piece.len()]).or(Err(fmt::Error))?;
    f.write_str(text)
}

impl fmt::Display for Hex<'_> {
    fn fmt<W: fmt::Write>(&self, f: &mut fmt::Formatter<W>) -> fmt::Result {
        let (pieces, rest) = self.0.as_chunks::<PIECE>();
        for piece in pieces {
            write_piece(piece, f)?;
        }
        write_piece(rest, f)
    }
}

impl fmt::Display for HexOrDash<'_> {
    fn fmt<W: fmt::Write>(&self, f: &mut fmt::Formatter<W>) -> fmt::Result {
        if self.0.is_empty() {
            return f.write_str("-");
        }
        write!(f, "{}", Hex(self.0))
    }
}

impl fmt::Display for Refused {
    fn fmt<W: fmt::Write>(&self, f: &mut fmt::Formatter<W>) -> fmt::Result {
        write!(f, "!{}", self.0.number())?;
        match self.0 {
            Refusal::BadCharacter(place) => write!(f, ":{:04X}", place % 65536),
            Refusal::CommError(byte) | Refusal::ResponseCode(byte) => write!(f, ":{byte:02X}"),
            _ => Ok(()),
        }
    }
}

impl<T: fmt::Display> fmt::Display for Told<T> {
    fn fmt<W: fmt::Write>(&self, f: &mut fmt::Formatter<W>) -> fmt::Result {
        match &self.0 {
            Ok(value) => write!(f, "{value}"),
            Err(refusal) => write!(f, "{}", Refused(*refusal)),
        }
    }
}
