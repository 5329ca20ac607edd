// The first byte of an address (types.rs): read field by field, and its two bits as they are written.
ghost use Rattle.std.specs.Prelude.{◌≡◌, ◌%◌};
ghost use Rattle.octets.specs.Bit.{bit};
ghost use Rattle.types.specs.First.{master_of, master_bit, burst_bit};

use crate::consts::address::{
    BURST_MODE_BIT, MANUFACTURER_ID_MASK, PRIMARY_MASTER_BIT, SHORT_ADDRESS_MASK,
};
use octets::has_bit;

#[derive(Clone, Copy, Debug, PartialEq, Eq)]
pub enum MasterRole {
    Primary,
    Secondary,
}

pub(crate) fn master_of(first: u8) -> MasterRole
    ensures { result ≡ master_of first }
{
    if has_bit(first, 7) {
        MasterRole::Primary
    } else {
        MasterRole::Secondary
    }
}

pub(crate) fn burst_of(first: u8) -> bool
    ensures { result ≡ bit 6 first }
{
    has_bit(first, 6)
}

// Of a short address.
pub(crate) fn polling_of(first: u8) -> u8
    ensures { result ≡ first % 16 }
{
    first & SHORT_ADDRESS_MASK
}

// Of a long one.
pub(crate) fn manufacturer_of(first: u8) -> u8
    ensures { result ≡ first % 64 }
{
    first & MANUFACTURER_ID_MASK
}

pub(crate) fn master_bit(master: MasterRole) -> u8
    ensures { result ≡ master_bit master }
{
    match master {
        MasterRole::Primary => PRIMARY_MASTER_BIT,
        MasterRole::Secondary => 0,
    }
}

pub(crate) fn burst_bit(burst: bool) -> u8
    ensures { result ≡ burst_bit burst }
{
    if burst { BURST_MODE_BIT } else { 0 }
}
