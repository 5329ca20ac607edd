// Addresses: one byte or five on the line.
ghost use Rattle.std.specs.Prelude.{◌≡◌, true, ◌<◌};
ghost use Rattle.refusal.specs.Outcome.{ends, reply_of};
ghost use Rattle.types.specs.Address.{address_length, head_length, short_address, read_address, is_long, read_of, decoded, first_byte, long_bytes, address_written};

use crate::consts::address::{MANUFACTURER_ID_MASK, SHORT_ADDRESS_MASK};
use crate::delimiter::Opening;
use crate::first::{
    MasterRole, burst_bit, burst_of, manufacturer_of, master_bit, master_of, polling_of,
};
use octets::{copy_into, decode_u24_be, encode_u24_be};
use refusal::Refusal;

pub const SHORT_ADDRESS_LENGTH: usize = 1;

pub const LONG_ADDRESS_LENGTH: usize = 5;

// As many bytes as any frame has between its delimiter and its command.
pub const HEAD_ROOM: usize = LONG_ADDRESS_LENGTH;

#[derive(Clone, Copy, Debug, PartialEq, Eq)]
pub enum Address {
    Short {
        master: MasterRole,
        burst: bool,
        poll_address: u8,
    },
    Long {
        master: MasterRole,
        burst: bool,
        manufacturer_id: u8,
        device_type: u8,
        device_id: u32,
    },
}

pub fn address_length(is_long: bool) -> u8
    ensures { result ≡ address_length is_long }
{
    if is_long {
        LONG_ADDRESS_LENGTH as u8
    } else {
        SHORT_ADDRESS_LENGTH as u8
    }
}

// How many bytes stand between a delimiter and the command.
pub fn head_length(opening: Opening) -> u8
    ensures { result ≡ head_length opening }
{
    address_length(opening.is_long)
}

fn short_address(first: u8) -> Address
    ensures { result ≡ short_address first }
{
    Address::Short {
        master: master_of(first),
        burst: burst_of(first),
        poll_address: polling_of(first),
    }
}

fn long_address(bytes: [u8; LONG_ADDRESS_LENGTH]) -> Address
    ensures { result ≡ read_address true bytes }
{
    let [first, device_type, high, middle, low] = bytes;
    Address::Long {
        master: master_of(first),
        burst: burst_of(first),
        manufacturer_id: manufacturer_of(first),
        device_type,
        device_id: decode_u24_be(high, middle, low),
    }
}

fn first_byte(master: MasterRole, burst: bool, low: u8) -> u8
    requires { low < 64 }
    ensures { result ≡ first_byte master burst low }
{
    master_bit(master) + burst_bit(burst) + low
}

fn long_bytes(first: u8, device_type: u8, device_id: u32) -> [u8; LONG_ADDRESS_LENGTH]
    ensures { result ≡ long_bytes first device_type device_id }
{
    let [high, middle, low] = encode_u24_be(device_id);
    [first, device_type, high, middle, low]
}

impl Address {
    // Takes the first byte, or all five.
    pub fn from_bytes(bytes: [u8; LONG_ADDRESS_LENGTH], is_long: bool) -> Address
        ensures { result ≡ read_address is_long bytes }
    {
        if is_long {
            return long_address(bytes);
        }
        short_address(bytes[0])
    }

    // The address and how many bytes it took; those past them are not looked at.
    pub fn decode(buf: &[u8], is_long: bool) -> Result<(Address, usize), Refusal>
        ensures { read_of result ≡ decoded is_long buf.now }
    {
        match *buf {
            [b0, b1, b2, b3, b4, ..] if is_long => {
                Ok((long_address([b0, b1, b2, b3, b4]), LONG_ADDRESS_LENGTH))
            }
            [first, ..] if !is_long => Ok((short_address(first), SHORT_ADDRESS_LENGTH)),
            _ => Err(Refusal::BufferTooShort),
        }
    }

    // Writes as many bytes as the address has. The Rust stops where the buffer has fewer.
    pub fn encode(self, buf: &mut [u8]) -> Result<usize, Refusal>
        ensures { ends (reply_of result) buf.new ≡ address_written self buf.old }
    {
        match self {
            Address::Short {
                master,
                burst,
                poll_address,
            } => {
                if buf.len() < SHORT_ADDRESS_LENGTH {
                    return Err(Refusal::BufferTooSmall);
                }
                buf[0] = first_byte(master, burst, poll_address & SHORT_ADDRESS_MASK);
                Ok(SHORT_ADDRESS_LENGTH)
            }
            Address::Long {
                master,
                burst,
                manufacturer_id,
                device_type,
                device_id,
            } => {
                if buf.len() < LONG_ADDRESS_LENGTH {
                    return Err(Refusal::BufferTooSmall);
                }
                let first = first_byte(master, burst, manufacturer_id & MANUFACTURER_ID_MASK);
                copy_into(&long_bytes(first, device_type, device_id), buf, 0);
                Ok(LONG_ADDRESS_LENGTH)
            }
        }
    }

    pub fn is_long(self) -> bool
        ensures { result ≡ is_long self }
    {
        matches!(self, Address::Long { .. })
    }
}
