// The bytes of a case, taken from the front. Where one is missing or stands for nothing, the line is no case.
use crate::buffer::Buffer;
use commands::Mode;
use types::FrameType;
use types::consts::commands::{
    READ_DEVICE_ID, READ_DEVICE_VARS_WITH_STATUS, READ_TAG_DESCRIPTOR_DATE, READ_UNIQUE_ID_BY_TAG,
    WRITE_TAG_DESCRIPTOR_DATE,
};

#[derive(Clone, Copy, Debug, Drop)]
pub(crate) struct NoCase;

// A command that a device answers.
#[derive(Clone, Copy, Drop)]
pub(crate) enum Command {
    ReadDeviceId,
    ReadDeviceVars,
    ReadUniqueIdByTag,
    ReadTagDescriptorDate,
    WriteTagDescriptorDate,
}

pub(crate) fn frame_type_of(number: u8) -> Result<FrameType, NoCase> {
    match number {
        0 => Ok(FrameType::Request),
        1 => Ok(FrameType::Response),
        2 => Ok(FrameType::Burst),
        _ => Err(NoCase),
    }
}

// The bytes that are not taken yet.
#[derive(Drop)]
pub(crate) struct Given<'a> {
    bytes: &'a [u8],
}

impl<'a> Given<'a> {
    pub(crate) fn new(bytes: &'a [u8]) -> Given<'a> {
        Given { bytes }
    }

    pub(crate) fn is_empty(&self) -> bool {
        self.bytes.is_empty()
    }

    pub(crate) fn len(&self) -> usize {
        self.bytes.len()
    }

    pub(crate) fn array<const N: usize>(&mut self) -> Result<[u8; N], NoCase> {
        let (array, behind) = self.bytes.split_first_chunk::<N>().ok_or(NoCase)?;
        self.bytes = behind;
        Ok(*array)
    }

    pub(crate) fn byte(&mut self) -> Result<u8, NoCase> {
        let [byte] = self.array::<1>()?;
        Ok(byte)
    }

    pub(crate) fn u16(&mut self) -> Result<u16, NoCase> {
        Ok(u16::from_be_bytes(self.array()?))
    }

    pub(crate) fn u32(&mut self) -> Result<u32, NoCase> {
        Ok(u32::from_be_bytes(self.array()?))
    }

    pub(crate) fn usize(&mut self) -> Result<usize, NoCase> {
        Ok(usize::from_be_bytes(self.array()?))
    }

    pub(crate) fn flag(&mut self) -> Result<bool, NoCase> {
        match self.byte()? {
            0 => Ok(false),
            1 => Ok(true),
            _ => Err(NoCase),
        }
    }

    pub(crate) fn mode(&mut self) -> Result<Mode, NoCase> {
        match self.byte()? {
            0 => Ok(Mode::Crate),
            1 => Ok(Mode::Standard),
            _ => Err(NoCase),
        }
    }

    pub(crate) fn frame_type(&mut self) -> Result<FrameType, NoCase> {
        frame_type_of(self.byte()?)
    }

    pub(crate) fn command(&mut self) -> Result<Command, NoCase> {
        match self.byte()? {
            READ_DEVICE_ID => Ok(Command::ReadDeviceId),
            READ_DEVICE_VARS_WITH_STATUS => Ok(Command::ReadDeviceVars),
            READ_UNIQUE_ID_BY_TAG => Ok(Command::ReadUniqueIdByTag),
            READ_TAG_DESCRIPTOR_DATE => Ok(Command::ReadTagDescriptorDate),
            WRITE_TAG_DESCRIPTOR_DATE => Ok(Command::WriteTagDescriptorDate),
            _ => Err(NoCase),
        }
    }

    // How many bytes the buffer has that a call is lent, in one byte and in two.
    pub(crate) fn short_room(&mut self) -> Result<Buffer, NoCase> {
        Buffer::new(self.byte()?.into())
    }

    pub(crate) fn room(&mut self) -> Result<Buffer, NoCase> {
        Buffer::new(self.u16()?.into())
    }

    // All that is left.
    pub(crate) fn rest(&mut self) -> &'a [u8] {
        let rest = self.bytes;
        self.bytes = &rest[rest.len()..];
        rest
    }

    // All that is left, which is no more than the array holds, and zeros behind it.
    pub(crate) fn padded<const N: usize>(&mut self) -> Result<[u8; N], NoCase> {
        let rest = self.rest();
        if rest.len() > N {
            return Err(NoCase);
        }
        let mut padded = [0; N];
        padded[..rest.len()].copy_from_slice(rest);
        Ok(padded)
    }

    // Nothing is left.
    pub(crate) fn end(&self) -> Result<(), NoCase> {
        if self.is_empty() { Ok(()) } else { Err(NoCase) }
    }
}
