// The bits in front of a C host's state block, as one number: where a decoder stands, field by field.
// Document 01, 'For the C host'.
ghost use Rattle.std.specs.Prelude.{◌<◌, ◌≡◌};
ghost use Rattle.types.specs.Address.{head_length};
ghost use Rattle.line.specs.machine.Step.{opening_in};
ghost use Rattle.host.specs.Bits.{side_by_side};
ghost use Rattle.host.specs.Header.{header_widths, long_bit, without_head, with_head, header_of, type_numbered, head_said, state_at};
ghost use Rattle.host.specs.Code.{header_end, summed};

use line::{Head, State};
use types::{FrameType, head_length};

// What a one in each field counts for, the last field first: each stands above the bits of the field behind
// it, the check above the zero bits. A field is read as what is below the next one, over its own.
const CHECK: u64 = 16;

const COMMAND: u64 = CHECK * 256;

const RECEIVED: u64 = COMMAND * 256;

const EXPECTED: u64 = RECEIVED * 256;

const ADDRESS: u64 = EXPECTED * 256;

const PREAMBLES: u64 = ADDRESS * 8;

const LONG: u64 = PREAMBLES * 8;

const TYPE: u64 = LONG * 2;

const PHASE: u64 = TYPE * 4;

const END: u64 = PHASE * 8;

// The bytes of all the fields together: a number below `END` has no more.
pub(crate) const HEADER_SIZE: usize = 6;

// The bit that a block and a record have for a long address.
pub(crate) fn long_bit(long: bool) -> u8
    ensures { result ≡ long_bit long }
{
    u8::from(long)
}

// The phases, by their numbers in a header.
const HUNTING: u8 = 0;

const PREAMBLE: u8 = 1;

const IN_ADDRESS: u8 = 2;

const IN_COMMAND: u8 = 3;

const BYTE_COUNT: u8 = 4;

const DATA: u8 = 5;

const CHECKSUM: u8 = 6;

// The fields of a header, each phase's in one shape: they are packed in one place, and `header_of` is small
// enough for the compiler to take it into its callers. The counts, of preambles or of data, and the command
// are one number, in which each stands as in the header.
#[derive(Clone, Copy)]
struct Fields {
    phase: u8,
    frame_type: u8,
    long: u8,
    address: u8,
    check: u8,
    counts: u64,
}

// The fields side by side. The first three are moved up together, which takes fewer instructions.
fn packed(fields: Fields) -> u64
    requires { fields.counts < header_end }
    ensures { result ≡ summed fields }
{
    let typed = fields.phase as u64 * (PHASE / LONG) + fields.frame_type as u64 * (TYPE / LONG);
    let opened = (typed + fields.long as u64) * LONG;
    opened + fields.address as u64 * ADDRESS + fields.counts + fields.check as u64 * CHECK
}

// The fields of a state before a delimiter.
fn without_head(phase: u8, preambles: u8) -> Fields
    ensures { (result.counts < header_end) × (summed result ≡ side_by_side header_widths (without_head phase preambles)) }
{
    Fields {
        phase,
        frame_type: 0,
        long: 0,
        address: 0,
        check: 0,
        counts: preambles as u64 * PREAMBLES,
    }
}

// The fields of a state behind a delimiter. The data's two counts and the command are 0 until read.
fn with_head(phase: u8, head: Head, address: u8, expected: u8, received: u8, command: u8) -> Fields
    ensures { (result.counts < header_end) × (summed result ≡ side_by_side header_widths (with_head phase head address expected received command)) }
{
    let frame_type = head.frame_type;
    let loaded = expected as u64 * EXPECTED + received as u64 * RECEIVED;
    Fields {
        phase,
        frame_type: frame_type.number(),
        long: long_bit(head.is_long),
        address,
        check: head.check,
        counts: loaded + command as u64 * COMMAND,
    }
}

// The same behind the address, which stays received.
fn behind_address(phase: u8, head: Head, expected: u8, received: u8, command: u8) -> Fields
    ensures { (result.counts < header_end) × (summed result ≡ side_by_side header_widths (with_head phase head (head_length (opening_in head)) expected received command)) }
{
    let address = head_length(head.opening());
    with_head(phase, head, address, expected, received, command)
}

#[tactic(auto, unfolding(crate::specs::Header::header_of))]
fn fields_of(state: State) -> Fields
    ensures { (result.counts < header_end) × (summed result ≡ header_of state) }
{
    match state {
        State::Hunting => without_head(HUNTING, 0),
        State::Preamble(count) => without_head(PREAMBLE, count),
        State::Address { head, received } => with_head(IN_ADDRESS, head, received, 0, 0, 0),
        State::Command { head } => behind_address(IN_COMMAND, head, 0, 0, 0),
        State::ByteCount { head, command } => behind_address(BYTE_COUNT, head, 0, 0, command),
        State::Data {
            head,
            command,
            expected,
            received,
        } => behind_address(DATA, head, expected, received, command),
        State::Checksum {
            head,
            command,
            expected,
        } => behind_address(CHECKSUM, head, expected, expected, command),
    }
}

// The header that says this state.
pub(crate) fn header_of(state: State) -> u64
    ensures { result ≡ header_of state }
{
    packed(fields_of(state))
}

// Every number of a header's two bits is read: that 3 is no type is found by making the header again.
fn type_numbered(number: u64) -> FrameType
    ensures { result ≡ type_numbered number }
{
    match number {
        1 => FrameType::Response,
        2 => FrameType::Burst,
        _ => FrameType::Request,
    }
}

fn head_said(number: u64, long: u64, check: u8) -> Head
    ensures { result ≡ head_said number long check }
{
    Head {
        frame_type: type_numbered(number),
        is_long: long == 1,
        check,
    }
}

// The state that a header speaks of, if it speaks of one: `header_of` tells whether it does, and
// whether every other bit of it is as it must be.
#[tactic(auto, unfolding(crate::specs::Header::state_at))]
pub(crate) fn state_at(header: u64) -> State
    ensures { result ≡ state_at header }
{
    let phase = (header % END / PHASE) as u8;
    let check = (header % COMMAND / CHECK) as u8;
    let head = head_said(header % PHASE / TYPE, header % TYPE / LONG, check);
    let command = (header % RECEIVED / COMMAND) as u8;
    let expected = (header % ADDRESS / EXPECTED) as u8;
    let received = (header % EXPECTED / RECEIVED) as u8;
    match phase {
        PREAMBLE => State::Preamble((header % LONG / PREAMBLES) as u8),
        IN_ADDRESS => State::Address {
            head,
            received: (header % PREAMBLES / ADDRESS) as u8,
        },
        IN_COMMAND => State::Command { head },
        BYTE_COUNT => State::ByteCount { head, command },
        DATA => State::Data {
            head,
            command,
            expected,
            received,
        },
        CHECKSUM => State::Checksum {
            head,
            command,
            expected,
        },
        _ => State::Hunting,
    }
}
