// What a measured value is worth, letter m. A float gives its bits only where it is no NaN, so the variable's bits
// are shown if the reading's float and the variable's value are the float that is made of them here, by
// arithmetic alone: where the library reads bits otherwise the answer is `other`.
use crate::given::Given;
use crate::output::{Answered, Output};
use crate::shown::Refused;
use commands::read_device_vars::DeviceVariable;
use commands::{Mode, Reading, read_device_vars};
use std::fmt;
use std::fmt::Write;
use std::num::nearest_u32_to_f32;

// The exponent bits that stand for a factor of 1, where the significand is read as a whole number.
const UNSCALED: u32 = 150;

// The hidden bit stands above the fraction's 23, unless the exponent bits are all zero.
fn significand(exponent: u32, fraction: u32) -> u32 {
    if exponent == 0 {
        return fraction % 0x800000;
    }
    fraction % 0x800000 + 0x800000
}

fn multiplied(number: f32, factor: f32, times: u32) -> f32 {
    let mut number = number;
    for _ in 0..times {
        number = number * factor;
    }
    number
}

// Exponent bits that are all zero scale as 1 does.
fn scaled(number: f32, exponent: u32) -> f32 {
    if exponent > UNSCALED {
        return multiplied(number, 2.0, exponent - UNSCALED);
    }
    if exponent == 0 {
        return multiplied(number, 0.5, UNSCALED - 1);
    }
    multiplied(number, 0.5, UNSCALED - exponent)
}

// Of bits whose exponent bits are not all ones. Each step is exact.
fn float_of(bits: u32) -> f32 {
    let exponent = bits / 0x800000 % 256;
    let number = nearest_u32_to_f32(significand(exponent, bits));
    let magnitude = scaled(number, exponent);
    if bits < 0x80000000 {
        return magnitude;
    }
    -magnitude
}

// The quotients tell the two zeros apart.
fn is_same(a: f32, b: f32) -> bool {
    (a == b) & (1.0 / a == 1.0 / b)
}

// A word and the bits that the float was read from.
fn put_float(word: &str, float: f32, variable: DeviceVariable, out: &mut Output) -> fmt::Result {
    let made = float_of(variable.bits);
    if is_same(float, made) & is_same(variable.value, made) {
        write!(out, "{word} {:08X}", variable.bits)
    } else {
        write!(out, "{word} other")
    }
}

fn put_reading(variable: DeviceVariable, out: &mut Output) -> fmt::Result {
    match variable.reading() {
        Reading::Good(float) => put_float("good", float, variable, out),
        Reading::Poor(float) => put_float("poor", float, variable, out),
        Reading::Fixed(float) => put_float("fixed", float, variable, out),
        Reading::Bad => write!(out, "bad"),
        Reading::Absent => write!(out, "absent"),
    }
}

pub(crate) fn read_reading(mut given: Given, out: &mut Output) -> Answered {
    let group: [u8; 8] = given.array()?;
    given.end()?;
    match read_device_vars::decode_data(Mode::Crate, &group) {
        Ok(response) => put_reading(response.variables[0], out)?,
        Err(refusal) => write!(out, "{}", Refused(refusal))?,
    }
    Ok(())
}
