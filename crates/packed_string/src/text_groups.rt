// Groups of packed text in either mode (packed_string.rs), at their places in a lent buffer. Nothing is
// refused here: as many whole groups are written as there are and fit.
ghost use Rattle.std.specs.Prelude.{◌≡◌, ◌+◌, ◌*◌, ◌≤◌, length, get_or};
ghost use Rattle.octets.specs.Put.{put};
ghost use Rattle.packed_string.specs.Groups.{packed_group, unpacked_group, packed, unpacked, packed_count, unpacked_count};

use crate::text_group::{Mode, packed_group, unpacked_group};
use octets::copy_into;

// The character at a place; past the end of the text stands a space.
fn character_at(src: &[u8], i: usize) -> u8
    ensures { result ≡ get_or src.now i 0x20 }
{
    src.get(i).copied().unwrap_or(b' ')
}

// Group g of a text. The text reaches up to the group, so that no place in it passes the largest number.
fn packed_at(mode: Mode, src: &[u8], g: usize) -> [u8; 3]
    requires { g * 4 ≤ length src.now }
    ensures { result ≡ packed_group mode src.now g }
{
    let base = g * 4;
    let group = [
        character_at(src, base),
        character_at(src, base + 1),
        character_at(src, base + 2),
        character_at(src, base + 3),
    ];
    packed_group(mode, &group)
}

// Group g of some bytes, as characters.
fn unpacked_at(mode: Mode, src: &[u8], g: usize) -> [u8; 4]
    requires { g * 3 + 3 ≤ length src.now }
    ensures { result ≡ unpacked_group mode src.now g }
{
    let base = g * 3;
    unpacked_group(mode, [src[base], src[base + 1], src[base + 2]])
}

// Packs as many whole groups of the text as fit and tells how many. One loop for this and `unpack` would call
// an `Fn(usize) -> [u8; SIZE]`: of a bound that names a const parameter the borrow checker has no proof.
pub(crate) fn pack(mode: Mode, src: &[u8], dst: &mut [u8]) -> usize
    ensures { (result ≡ packed_count src.now dst.old) × (dst.new ≡ put dst.old 0 (packed mode src.now (packed_count src.now dst.old))) }
{
    let n_groups = src.len().div_ceil(4).min(dst.len() / 3);
    for g in 0..n_groups {
        copy_into(&packed_at(mode, src, g), dst, g * 3);
    }
    n_groups
}

// Unpacks as many whole groups as there are and fit and tells how many.
pub(crate) fn unpack(mode: Mode, src: &[u8], dst: &mut [u8]) -> usize
    ensures { (result ≡ unpacked_count src.now dst.old) × (dst.new ≡ put dst.old 0 (unpacked mode src.now (unpacked_count src.now dst.old))) }
{
    let n_groups = (src.len() / 3).min(dst.len() / 4);
    for g in 0..n_groups {
        copy_into(&unpacked_at(mode, src, g), dst, g * 4);
    }
    n_groups
}
