// The device itself: its identity, its text and what it measures. All of it is fixed; a real device has these from
// its memory and its sensors.
ghost use Rattle.std.specs.Prelude.{◌≡◌};
ghost use Rattle.commands.specs.Variables.{variable};
ghost use Rattle.device.specs.Own.{own_identity, own_tag, own_texts, own_variable};

use commands::read_device_vars::DeviceVariable;
use commands::{DeviceIdentity, TagDescriptorDate, value_of};
use response::TAG_LENGTH;
use types::consts::MIN_PREAMBLE_COUNT;

pub(crate) fn own_identity() -> DeviceIdentity
    ensures { result ≡ own_identity }
{
    DeviceIdentity {
        expansion_code: 0xFE,
        expanded_device_type: 0x260A,
        min_preamble_count: MIN_PREAMBLE_COUNT,
        hart_revision: 5,
        device_revision: 1,
        software_revision: 2,
        hardware_revision: 4,
        physical_signaling: 1,
        flags: 0,
        device_id: 0x010203,
    }
}

pub(crate) fn own_tag() -> [u8; TAG_LENGTH]
    ensures { result ≡ own_tag }
{
    *b"TANK-07 "
}

// 31 December 2026: years are counted from 1900.
pub(crate) fn own_texts() -> TagDescriptorDate
    ensures { result ≡ own_texts }
{
    TagDescriptorDate {
        tag: own_tag(),
        descriptor: *b"CRUDE OIL LEVEL ",
        day: 31,
        month: 12,
        year: 126,
    }
}

fn variable(code: u8, class: u8, unit: u8, bits: u32, status: u8) -> DeviceVariable
    ensures { result ≡ variable code class unit bits status }
{
    let value = value_of(bits);
    DeviceVariable {
        device_var_code: code,
        classification: class,
        unit,
        value,
        bits,
        status,
    }
}

// Level, volume, temperature and loop current, each with a good status. What is asked for and not there is no
// number, in no unit, and bad.
pub(crate) fn own_variable(code: u8) -> DeviceVariable
    ensures { result ≡ own_variable code }
{
    match code {
        0 => variable(0, 69, 45, 0x40E80000, 0xC0),
        1 => variable(1, 68, 43, 0x44B54000, 0xC0),
        2 => variable(2, 64, 32, 0x41940000, 0xC0),
        3 => variable(3, 84, 39, 0x41400000, 0xC0),
        _ => variable(code, 0, 0xFA, 0x7FA00000, 0x30),
    }
}
