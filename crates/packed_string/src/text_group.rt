// A group of packed text: four characters and three bytes. Where the Rust shifts and masks stand `/`
// and `%`.
ghost use Rattle.std.specs.Prelude.{◌≡◌, map, ◌<◌};
ghost use Rattle.octets.specs.Digits.{Below};
ghost use Rattle.packed_string.specs.Group.{pack_group, unpack_group, code_of, char_of};

// How a character becomes a code, and a code a character: the Rust's way or the HART documents'. The
// commands take it for all in which the two differ.
#[derive(Clone, Copy, Debug, PartialEq, Eq)]
pub enum Mode {
    Crate,
    Standard,
}

fn code(mode: Mode, c: u8) -> u8
    ensures { result ≡ code_of mode c }
{
    match mode {
        Mode::Crate => c.saturating_sub(0x20) % 64,
        Mode::Standard => c % 64,
    }
}

fn character(mode: Mode, code: u8) -> u8
    requires { code < 64 }
    ensures { result ≡ char_of mode code }
{
    match mode {
        Mode::Crate => code + 0x20,
        Mode::Standard => if code < 32 { code + 64 } else { code },
    }
}

// Three bytes from four codes.
fn pack_group(group: [u8; 4]) -> [u8; 3]
    requires { Below 64 group }
    ensures { result ≡ pack_group group }
{
    let [c0, c1, c2, c3] = group;
    [c0 * 4 + c1 / 16, c1 % 16 * 16 + c2 / 4, c2 % 4 * 64 + c3]
}

// Four codes from three bytes.
fn unpack_group(group: [u8; 3]) -> [u8; 4]
    ensures { result ≡ unpack_group group }
{
    let [b0, b1, b2] = group;
    [
        b0 / 4,
        b0 % 4 * 16 + b1 / 16,
        b1 % 16 * 4 + b2 / 64,
        b2 % 64,
    ]
}

// Three bytes from four characters. They are lent, since four bytes that move are joined in one word and parted again.
pub(crate) fn packed_group(mode: Mode, group: &[u8; 4]) -> [u8; 3]
    ensures { result ≡ pack_group (map (code_of mode) group.now) }
{
    let &[c0, c1, c2, c3] = group;
    pack_group([
        code(mode, c0),
        code(mode, c1),
        code(mode, c2),
        code(mode, c3),
    ])
}

// Four characters from three bytes. Each code has its name: a `map` over them goes through one word too, at twice the time.
pub(crate) fn unpacked_group(mode: Mode, group: [u8; 3]) -> [u8; 4]
    ensures { result ≡ map (char_of mode) (unpack_group group) }
{
    let [c0, c1, c2, c3] = unpack_group(group);
    [
        character(mode, c0),
        character(mode, c1),
        character(mode, c2),
        character(mode, c3),
    ]
}
