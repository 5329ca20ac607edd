// The calls that only read, letters a, s, i, I, g, G, j, k, K, h, H and J.
use crate::addresses::address_bytes;
use crate::given::Given;
use crate::output::{Answered, Output};
use crate::shown::{Hex, Told};
use commands::read_device_vars::{DeviceVariable, ReadDeviceVarsResponse};
use commands::{
    DeviceIdentity, Mode, TagDescriptorDate, read_device_vars, read_tag_descriptor_date,
    read_unique_id_by_tag, write_tag_descriptor_date,
};
use refusal::Refusal;
use std::fmt;
use std::fmt::Write;
use types::{Address, ResponseStatus};

// An address and how many bytes it took.
#[derive(Drop)]
struct Located {
    address: Address,
    used: usize,
}

impl fmt::Display for Located {
    fn fmt<W: fmt::Write>(&self, f: &mut fmt::Formatter<W>) -> fmt::Result {
        write!(f, "{} {}", self.used, Hex(&address_bytes(self.address)))
    }
}

pub(crate) fn read_address(mut given: Given, out: &mut Output) -> Answered {
    let is_long = given.flag()?;
    let read = Address::decode(given.rest(), is_long).map(|(address, used)| Located {
        address,
        used,
    });
    write!(out, "{}", Told(read))?;
    Ok(())
}

pub(crate) fn read_status(mut given: Given, out: &mut Output) -> Answered {
    let status = ResponseStatus::from_bytes(given.array()?);
    given.end()?;
    let bits = [
        status.has_error(),
        status.device_malfunction(),
        status.config_changed(),
        status.cold_start(),
        status.more_status_available(),
        status.pv_out_of_limits(),
    ];
    for bit in bits {
        write!(out, "{}", u8::from(bit))?;
    }
    Ok(())
}

#[derive(Drop)]
struct Identity(DeviceIdentity);

impl fmt::Display for Identity {
    fn fmt<W: fmt::Write>(&self, f: &mut fmt::Formatter<W>) -> fmt::Result {
        let DeviceIdentity {
            expansion_code,
            expanded_device_type,
            min_preamble_count,
            hart_revision,
            device_revision,
            software_revision,
            hardware_revision,
            physical_signaling,
            flags,
            device_id,
        } = self.0;
        let revisions = [
            min_preamble_count,
            hart_revision,
            device_revision,
            software_revision,
            hardware_revision,
            physical_signaling,
            flags,
        ];
        write!(
            f,
            "{}{}{}{}",
            Hex(&[expansion_code]),
            Hex(&expanded_device_type.to_be_bytes()),
            Hex(&revisions),
            Hex(&device_id.to_be_bytes())
        )
    }
}

pub(crate) fn put_identity(read: Result<DeviceIdentity, Refusal>, out: &mut Output) -> fmt::Result {
    write!(out, "{}", Told(read.map(Identity)))
}

#[derive(Drop)]
struct Variables(ReadDeviceVarsResponse);

fn write_variable<W: fmt::Write>(
    variable: DeviceVariable,
    f: &mut fmt::Formatter<W>,
) -> fmt::Result {
    let DeviceVariable {
        device_var_code,
        classification,
        unit,
        value: _,
        bits,
        status,
    } = variable;
    let [first, second, third, fourth] = bits.to_be_bytes();
    let bytes = [
        device_var_code,
        classification,
        unit,
        first,
        second,
        third,
        fourth,
        status,
    ];
    write!(f, "{}", Hex(&bytes))
}

impl fmt::Display for Variables {
    fn fmt<W: fmt::Write>(&self, f: &mut fmt::Formatter<W>) -> fmt::Result {
        let count = self.0.count;
        write!(f, "{count} ")?;
        if count == 0 {
            return f.write_str("-");
        }
        for variable in self.0.variables.iter().take(count as usize) {
            write_variable(*variable, f)?;
        }
        Ok(())
    }
}

pub(crate) fn put_variables(
    read: Result<ReadDeviceVarsResponse, Refusal>,
    out: &mut Output,
) -> fmt::Result {
    write!(out, "{}", Told(read.map(Variables)))
}

#[derive(Drop)]
struct Texts(TagDescriptorDate);

impl fmt::Display for Texts {
    fn fmt<W: fmt::Write>(&self, f: &mut fmt::Formatter<W>) -> fmt::Result {
        let texts = &self.0;
        write!(
            f,
            "{}{}{}",
            Hex(&texts.tag),
            Hex(&texts.descriptor),
            Hex(&[texts.day, texts.month, texts.year])
        )
    }
}

pub(crate) fn put_texts(read: Result<TagDescriptorDate, Refusal>, out: &mut Output) -> fmt::Result {
    write!(out, "{}", Told(read.map(Texts)))
}

// By one of the calls that read an identity.
pub(crate) fn read_identity<F>(decode: F, mut given: Given, out: &mut Output) -> Answered
where
    F: FnOnce(&[u8]) -> Result<DeviceIdentity, Refusal>,
    requires { F.IsAlwaysCallable decode }
{
    put_identity(decode(given.rest()), out)?;
    Ok(())
}

pub(crate) fn read_variables(mode: Mode, mut given: Given, out: &mut Output) -> Answered {
    put_variables(read_device_vars::decode_data(mode, given.rest()), out)?;
    Ok(())
}

pub(crate) fn read_tag(mode: Mode, mut given: Given, out: &mut Output) -> Answered {
    let packed = given.array()?;
    given.end()?;
    let tag = read_unique_id_by_tag::decode_tag(mode, packed);
    write!(out, "{}", Hex(&tag))?;
    Ok(())
}

pub(crate) fn read_texts(mode: Mode, mut given: Given, out: &mut Output) -> Answered {
    put_texts(
        write_tag_descriptor_date::decode_data(mode, given.rest()),
        out,
    )?;
    Ok(())
}

pub(crate) fn read_stored(mut given: Given, out: &mut Output) -> Answered {
    let mode = given.mode()?;
    put_texts(
        read_tag_descriptor_date::decode_data(mode, given.rest()),
        out,
    )?;
    Ok(())
}
