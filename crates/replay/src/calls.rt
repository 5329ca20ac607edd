// The letters that leave nothing behind for the lines that follow.
use crate::blocks::{clear_copy, feed_copy};
use crate::case::REMARK;
use crate::constants::put_constants;
use crate::fields::{put_in_turn, write_whole};
use crate::given::{Given, NoCase};
use crate::measured::read_reading;
use crate::output::{Answered, Output};
use crate::payloads::{read_payload, read_typed};
use crate::readers::{
    read_address, read_identity, read_status, read_stored, read_tag, read_texts, read_variables,
};
use crate::requests::read_request;
use crate::responses::write_response;
use crate::writers::{
    write_address, write_codes, write_frame, write_no_data, write_tag, write_text, write_texts,
};
use commands::{DeviceIdentity, Mode, read_device_id, read_unique_id_by_tag};
use packed_string::{decode_packed, decode_standard, encode_packed, encode_standard};

// A call that has both modes has a small letter for that of the Rust, and the capital one for the standard. Text is
// coded through closures: a function of another crate's private module has no contract as a value.
pub(crate) fn answer_call(letter: u8, given: Given, out: &mut Output) -> Answered {
    match letter {
        REMARK => {
            out.put(REMARK)?;
            Ok(())
        }
        b'w' => write_address(given, out),
        b'a' => read_address(given, out),
        b'e' => write_frame(given, out),
        b'p' => write_text(|text, packed| Ok(encode_packed(text, packed)), given, out),
        b'P' => write_text(|text, packed| encode_standard(text, packed), given, out),
        b'u' => write_text(|packed, text| Ok(decode_packed(packed, text)), given, out),
        b'U' => write_text(|packed, text| decode_standard(packed, text), given, out),
        b's' => read_status(given, out),
        b'i' => read_identity(DeviceIdentity::decode, given, out),
        b'q' => write_codes(given, out),
        b'g' => read_variables(Mode::Crate, given, out),
        b'G' => read_variables(Mode::Standard, given, out),
        b'm' => read_reading(given, out),
        b't' => write_tag(Mode::Crate, given, out),
        b'T' => write_tag(Mode::Standard, given, out),
        b'j' => read_identity(read_unique_id_by_tag::decode_data, given, out),
        b'k' => read_tag(Mode::Crate, given, out),
        b'K' => read_tag(Mode::Standard, given, out),
        b'd' => write_texts(Mode::Crate, given, out),
        b'D' => write_texts(Mode::Standard, given, out),
        b'h' => read_texts(Mode::Crate, given, out),
        b'H' => read_texts(Mode::Standard, given, out),
        b'I' => read_identity(read_device_id::decode_data, given, out),
        b'J' => read_stored(given, out),
        b'O' => write_no_data(given, out),
        b'x' => put_constants(given, out),
        b'y' => read_payload(given, out),
        b'f' => read_typed(given, out),
        b'Q' => read_request(given, out),
        b'R' => write_response(given, out),
        b'W' => put_in_turn(given, out),
        b'F' => write_whole(given, out),
        b'o' => feed_copy(given, out),
        b'c' => clear_copy(given, out),
        _ => Err(NoCase.into()),
    }
}
