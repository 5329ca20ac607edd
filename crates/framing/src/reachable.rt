// Which decoder values some run of bytes leads to. Document 01, 'What comes back': feeding any other
// is refused with 8.
ghost use Rattle.std.specs.Prelude.{◌≡◌, true, ◌≤◌, length, drop};
ghost use Rattle.types.specs.Address.{head_room};
ghost use Rattle.line.specs.machine.Room.{decoder_room};
ghost use Rattle.line.specs.machine.Reachable.{claim, possible_claim, all_zero, is_clear, is_right, reachable_at};

use line::{Claim, Head, PREAMBLE_CAP, ROOM, State};
use octets::checksum_from;
use types::{HEAD_ROOM, delimiter_byte, head_length};

// So many bytes at a time: a multiple of what vector registers hold.
const STRIDE: usize = 64;

// A decoder's bytes are four strides and these.
const ODD: usize = ROOM - 4 * STRIDE;

const NO_CLAIM: Claim = Claim {
    check: 0,
    start: 0,
    address: 0,
    command: 0,
    count: 0,
    loaded: 0,
};

fn claimed(head: Head, address: u8, command: u8, count: u8, loaded: u8) -> Claim
    ensures { result ≡ claim head address command count loaded }
{
    Claim {
        check: head.check,
        start: delimiter_byte(head.opening()),
        address,
        command,
        count,
        loaded,
    }
}

// The claim of a state whose counts are possible at all.
fn possible_claim(state: State) -> Option<Claim>
    ensures { result ≡ possible_claim state }
{
    match state {
        State::Hunting => Some(NO_CLAIM),
        State::Preamble(count) => {
            if (0 < count) & (count <= PREAMBLE_CAP) {
                Some(NO_CLAIM)
            } else {
                None
            }
        }
        State::Address { head, received } => {
            if received < head_length(head.opening()) {
                Some(claimed(head, received, 0, 0, 0))
            } else {
                None
            }
        }
        State::Command { head } => Some(claimed(head, head_length(head.opening()), 0, 0, 0)),
        State::ByteCount { head, command } => {
            Some(claimed(head, head_length(head.opening()), command, 0, 0))
        }
        State::Data {
            head,
            command,
            expected,
            received,
        } => {
            if received < expected {
                let all = head_length(head.opening());
                Some(claimed(head, all, command, expected, received))
            } else {
                None
            }
        }
        State::Checksum {
            head,
            command,
            expected,
        } => {
            let all = head_length(head.opening());
            Some(claimed(head, all, command, expected, expected))
        }
    }
}

// Whether all is zero. No byte ends the loop early, so that the compiler can take many at a time.
fn is_zero(bytes: &[u8]) -> bool
    ensures { result ≡ all_zero bytes.now }
{
    let mut zero = true;
    for byte in bytes {
        zero &= *byte == 0;
    }
    zero
}

// Whether all is zero from a place on: a stride from there, and whole strides up to the end. A byte that
// is in both is looked at twice, and no odd bytes are left, which would be taken one by one.
fn is_zero_from(bytes: &[u8], from: usize) -> bool
    requires { from ≤ length bytes.now }
    ensures { result ≡ all_zero (drop from bytes.now) }
{
    let unread = bytes.len() - from;
    if unread < STRIDE {
        return is_zero(&bytes[from..]);
    }
    let next = from + STRIDE;
    let whole = bytes.len() - unread / STRIDE * STRIDE;
    let first = is_zero(&bytes[from..next]);
    let rest = is_zero(&bytes[whole..]);
    first & rest
}

// Whether the check is that of the bytes that were read, if none stands past them. Zeros do not change a
// check, nor does the order, so that command and count come first and whole strides are mixed: behind the
// odd bytes in front there is place for them.
fn is_right(claim: Claim, bytes: &[u8]) -> bool
    requires { (claim.address ≤ head_room) × (length bytes.now ≡ decoder_room) }
    ensures { is_clear claim bytes.now ≡ true → result ≡ is_right claim bytes.now }
{
    let start = claim.start ^ claim.command ^ claim.count;
    let end = ODD + (claim.loaded as usize / STRIDE + 1) * STRIDE;
    let odd = checksum_from(start, &bytes[..ODD]);
    claim.check == checksum_from(odd, &bytes[ODD..end])
}

pub fn is_reachable(state: State, bytes: &[u8]) -> bool
    ensures { result ≡ reachable_at state bytes.now }
{
    if bytes.len() != ROOM {
        return false;
    }
    let Some(claim) = possible_claim(state) else {
        return false;
    };
    let address = claim.address as usize;
    let address_clear = is_zero(&bytes[address..HEAD_ROOM]);
    let data_clear = is_zero_from(bytes, HEAD_ROOM + claim.loaded as usize);
    let right = is_right(claim, bytes);
    address_clear & data_clear & right
}
