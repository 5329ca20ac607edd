// Numbers as text: a number in decimal, and a byte as two upper-case hex digits.
ghost use Rattle.std.specs.Prelude.{◌≡◌, ◌<◌, min};
ghost use Rattle.octets.specs.Figures.{hex_digit, hex_byte, decimal_room, decimal_of};
ghost use Rattle.octets.specs.Part.{part_of, from};

// The largest u64 has so many digits.
pub const DECIMAL_ROOM: usize = 20;

const LAST: usize = DECIMAL_ROOM - 1;

// The digits are those of `text` from place `from` on; zeros stand before them. They are found last
// one first, so they stand at the end.
#[derive(Clone, Copy)]
pub struct Digits {
    text: [u8; DECIMAL_ROOM],
    from: usize,
}

impl Digits {
    // No byte is copied. Whatever `from` is, it takes no place past the end.
    pub fn as_slice(&self) -> &[u8]
        ensures { part_of result ≡ from (min self.now.from decimal_room) (record { place = self.entry.ref_ptr; bytes = self.now.text }) }
    {
        &self.text[self.from.min(DECIMAL_ROOM)..]
    }
}

// With no zero in front. The loop ends by what is left of the number and not at a place, so no `for` over the
// places says it plainer.
pub fn decimal(number: u64) -> Digits
    ensures { result ≡ decimal_of number }
{
    let mut text = [0u8; DECIMAL_ROOM];
    let mut from = LAST;
    let mut rest = number;
    while rest > 9 {
        text[from] = b'0' + (rest % 10) as u8;
        rest /= 10;
        from -= 1;
    }
    text[from] = b'0' + rest as u8;
    Digits { text, from }
}

fn hex_digit(digit: u8) -> u8
    requires { digit < 16 }
    ensures { result ≡ hex_digit digit }
{
    if digit < 10 {
        digit + b'0'
    } else {
        digit - 10 + b'A'
    }
}

pub fn hex(byte: u8) -> [u8; 2]
    ensures { result ≡ hex_byte byte }
{
    [hex_digit(byte / 16), hex_digit(byte % 16)]
}
