// How the example tells what the library gives it.
use refusal::Refusal;
use std::fmt;

// Each byte as two digits, behind a space.
#[derive(Drop)]
pub(crate) struct Bytes<'a>(pub(crate) &'a [u8]);

// A refusal has a number, and some carry more: here the place of a character that has no code.
#[derive(Drop)]
pub(crate) struct Refused(pub(crate) Refusal);

impl fmt::Display for Bytes<'_> {
    fn fmt<W: fmt::Write>(&self, f: &mut fmt::Formatter<W>) -> fmt::Result {
        for byte in self.0 {
            write!(f, " {byte:02x}")?;
        }
        Ok(())
    }
}

impl fmt::Display for Refused {
    fn fmt<W: fmt::Write>(&self, f: &mut fmt::Formatter<W>) -> fmt::Result {
        write!(f, " refused with {}", self.0.number())?;
        match self.0 {
            Refusal::BadCharacter(place) => write!(f, " at place {place}"),
            _ => Ok(()),
        }
    }
}
