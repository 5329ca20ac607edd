// The numbers of frames, delimiters, addresses and commands, letter x: document 01, 'Modules'.
use crate::given::Given;
use crate::output::{Answered, Output};
use types::consts::address::{
    BURST_MODE_BIT, MANUFACTURER_ID_MASK, PRIMARY_MASTER_BIT, SHORT_ADDRESS_MASK,
};
use types::consts::commands::{
    READ_ADDITIONAL_STATUS, READ_DEVICE_ID, READ_DEVICE_INFO, READ_DEVICE_VARS_WITH_STATUS,
    READ_DYNAMIC_VAR_CLASS, READ_DYNAMIC_VARS, READ_FINAL_ASSEMBLY_NUMBER, READ_LONG_TAG,
    READ_LOOP_CONFIG, READ_LOOP_CURRENT_PERCENT, READ_MESSAGE, READ_PRIMARY_VARIABLE,
    READ_PV_TRANSDUCER_INFO, READ_TAG_DESCRIPTOR_DATE, READ_UNIQUE_ID_BY_LONG_TAG,
    READ_UNIQUE_ID_BY_TAG, RESET_CONFIG_CHANGED, WRITE_FINAL_ASSEMBLY_NUMBER, WRITE_LONG_TAG,
    WRITE_MESSAGE, WRITE_POLLING_ADDRESS, WRITE_TAG_DESCRIPTOR_DATE,
};
use types::consts::delimiter::{
    BURST_LONG, BURST_SHORT, LONG_ADDRESS_BIT, REQUEST_LONG, REQUEST_SHORT, RESPONSE_LONG,
    RESPONSE_SHORT,
};
use types::consts::{
    DEFAULT_PREAMBLE_COUNT, MAX_DATA_LENGTH, MAX_FRAME_LENGTH, MAX_PREAMBLE_COUNT,
    MIN_PREAMBLE_COUNT, PREAMBLE_BYTE,
};

const CONSTANTS: [usize; 39] = [
    PREAMBLE_BYTE as usize,
    MIN_PREAMBLE_COUNT as usize,
    MAX_PREAMBLE_COUNT as usize,
    DEFAULT_PREAMBLE_COUNT as usize,
    MAX_DATA_LENGTH,
    MAX_FRAME_LENGTH,
    REQUEST_SHORT as usize,
    REQUEST_LONG as usize,
    RESPONSE_SHORT as usize,
    RESPONSE_LONG as usize,
    BURST_SHORT as usize,
    BURST_LONG as usize,
    LONG_ADDRESS_BIT as usize,
    PRIMARY_MASTER_BIT as usize,
    BURST_MODE_BIT as usize,
    SHORT_ADDRESS_MASK as usize,
    MANUFACTURER_ID_MASK as usize,
    READ_DEVICE_ID as usize,
    READ_PRIMARY_VARIABLE as usize,
    READ_LOOP_CURRENT_PERCENT as usize,
    READ_DYNAMIC_VARS as usize,
    WRITE_POLLING_ADDRESS as usize,
    READ_LOOP_CONFIG as usize,
    READ_DYNAMIC_VAR_CLASS as usize,
    READ_DEVICE_VARS_WITH_STATUS as usize,
    READ_UNIQUE_ID_BY_TAG as usize,
    READ_MESSAGE as usize,
    READ_TAG_DESCRIPTOR_DATE as usize,
    READ_PV_TRANSDUCER_INFO as usize,
    READ_DEVICE_INFO as usize,
    READ_FINAL_ASSEMBLY_NUMBER as usize,
    WRITE_MESSAGE as usize,
    WRITE_TAG_DESCRIPTOR_DATE as usize,
    WRITE_FINAL_ASSEMBLY_NUMBER as usize,
    READ_LONG_TAG as usize,
    READ_UNIQUE_ID_BY_LONG_TAG as usize,
    WRITE_LONG_TAG as usize,
    RESET_CONFIG_CHANGED as usize,
    READ_ADDITIONAL_STATUS as usize,
];

pub(crate) fn put_constants(given: Given, out: &mut Output) -> Answered {
    given.end()?;
    for number in CONSTANTS {
        out.put_gap()?;
        let [.., high, low] = number.to_be_bytes();
        if high > 0 {
            out.put_hex(high)?;
        }
        out.put_hex(low)?;
    }
    Ok(())
}
