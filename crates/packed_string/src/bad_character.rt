// The characters that standard mode has no code for (ADDED).
ghost use Rattle.std.specs.Prelude.{◌≡◌, ◌&&◌, not, nat_le, position};
ghost use Rattle.packed_string.specs.Plain.{bad_place};

// The place of the first such character.
pub(crate) fn first_bad(src: &[u8]) -> Option<usize>
    ensures { result ≡ position (λ c. not (nat_le 0x20 c && nat_le c 0x5F)) src.now }
{
    src.iter().position(|c| !(0x20..=0x5F).contains(c))
}

// The same, or the text's length: the definition's number, which callers of old go by.
pub fn bad_place(src: &[u8]) -> usize
    ensures { result ≡ bad_place src.now }
{
    first_bad(src).unwrap_or(src.len())
}
