// Whole responses as a device writes them, letter R: document 02, 1/12.
use crate::given::{Command, Given, NoCase};
use crate::output::{Answered, Output};
use crate::writers::put_written;
use commands::read_device_vars::{DeviceVariable, MAX_DEVICE_VARS};
use commands::{
    DeviceIdentity, TagDescriptorDate, read_device_id, read_device_vars, read_tag_descriptor_date,
    read_unique_id_by_tag, value_of, write_tag_descriptor_date,
};

fn read_identity(given: &mut Given) -> Result<DeviceIdentity, NoCase> {
    let expansion_code = given.byte()?;
    let expanded_device_type = given.u16()?;
    let [
        min_preamble_count,
        hart_revision,
        device_revision,
        software_revision,
    ] = given.array::<4>()?;
    let [hardware_revision, physical_signaling, flags] = given.array::<3>()?;
    let device_id = given.u32()?;
    given.end()?;
    Ok(DeviceIdentity {
        expansion_code,
        expanded_device_type,
        min_preamble_count,
        hart_revision,
        device_revision,
        software_revision,
        hardware_revision,
        physical_signaling,
        flags,
        device_id,
    })
}

fn read_variable(given: &mut Given) -> Result<DeviceVariable, NoCase> {
    let [device_var_code, classification, unit] = given.array::<3>()?;
    let bits = given.u32()?;
    Ok(DeviceVariable {
        device_var_code,
        classification,
        unit,
        value: value_of(bits),
        bits,
        status: given.byte()?,
    })
}

// Behind the groups that there are, the variables are of zeros.
fn read_variables(given: &mut Given) -> Result<[DeviceVariable; MAX_DEVICE_VARS], NoCase> {
    let mut variables = [DeviceVariable {
        device_var_code: 0,
        classification: 0,
        unit: 0,
        value: value_of(0),
        bits: 0,
        status: 0,
    }; MAX_DEVICE_VARS];
    for variable in &mut variables {
        if !given.is_empty() {
            *variable = read_variable(given)?;
        }
    }
    given.end()?;
    Ok(variables)
}

pub(crate) fn read_texts(given: &mut Given) -> Result<TagDescriptorDate, NoCase> {
    let texts = TagDescriptorDate {
        tag: given.array()?,
        descriptor: given.array()?,
        day: given.byte()?,
        month: given.byte()?,
        year: given.byte()?,
    };
    given.end()?;
    Ok(texts)
}

pub(crate) fn write_response(mut given: Given, out: &mut Output) -> Answered {
    let command = given.command()?;
    let mut buffer = given.room()?;
    let [first, second] = given.array::<2>()?;
    let written = match command {
        Command::ReadDeviceId => {
            let identity = read_identity(&mut given)?;
            read_device_id::encode_response(first, second, identity, buffer.lent())
        }
        Command::ReadUniqueIdByTag => {
            let identity = read_identity(&mut given)?;
            read_unique_id_by_tag::encode_response(first, second, identity, buffer.lent())
        }
        Command::ReadDeviceVars => {
            let [extended, count] = given.array::<2>()?;
            let variables = read_variables(&mut given)?;
            read_device_vars::encode_response(
                first,
                second,
                extended,
                variables,
                count,
                buffer.lent(),
            )
        }
        Command::ReadTagDescriptorDate => {
            let mode = given.mode()?;
            let texts = read_texts(&mut given)?;
            read_tag_descriptor_date::encode_response(mode, first, second, texts, buffer.lent())
        }
        Command::WriteTagDescriptorDate => {
            let mode = given.mode()?;
            let texts = read_texts(&mut given)?;
            write_tag_descriptor_date::encode_response(mode, first, second, texts, buffer.lent())
        }
    };
    put_written(written, buffer, out)?;
    Ok(())
}
