// What a measured value is worth (ADDED; the Rust stops at the float), and the float itself from the
// 32 bits that the line carried.
ghost use Rattle.std.specs.Prelude.{◌≡◌};
ghost use Rattle.std.specs.Float.{binary32};
ghost use Rattle.std.specs.Float.Ieee.{nan_bits};
ghost use Rattle.commands.specs.Worth.{float_of, worth_of, worth};

#[derive(Clone, Copy, Debug, PartialEq)]
pub enum Reading {
    Good(f32),
    Poor(f32),
    Fixed(f32),
    Bad,
    Absent,
}

// All exponent bits set, and some bit below them.
fn is_nan_pattern(bits: u32) -> bool
    ensures { result ≡ nan_bits binary32 bits }
{
    (bits % 0x80000000 / 0x800000 == 255) & (bits % 0x800000 != 0)
}

// `f32::from_bits` is defined off the NaNs alone; each pattern of one gives the language's one NaN.
pub fn value_of(bits: u32) -> f32
    ensures { result ≡ float_of bits }
{
    if is_nan_pattern(bits) {
        let zero = 0.0;
        return zero / zero;
    }
    f32::from_bits(bits)
}

impl Reading {
    // By bits 7 and 6 of the status and by the float's bits. Bad comes first, whatever the float is.
    pub fn of(status: u8, bits: u32) -> Reading
        ensures { worth_of result ≡ worth status bits }
    {
        let quality = status / 64;
        if quality == 0 {
            return Reading::Bad;
        }
        if bits % 0x80000000 / 0x800000 == 255 {
            return Reading::Absent;
        }
        let value = value_of(bits);
        match quality {
            3 => Reading::Good(value),
            1 => Reading::Poor(value),
            _ => Reading::Fixed(value),
        }
    }
}
