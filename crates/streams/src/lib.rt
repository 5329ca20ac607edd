// Standard input and output, for the programs that pass on what they read. What a call of the system answers is
// nobody's promise; here it is proved that no more is counted than was handed over, that each byte of each read goes
// to the listener once and in order, and what there is to say of it to standard output. What goes wrong is said on
// standard error, behind the program's name.
#![tactic(auto)]

ghost use Rattle.std.specs.Prelude.{◌≡◌, true, false, ◌&&◌, ◌≤◌, ◌<◌, ℕ, List, Ok, Some, None, IfOk, IfErr, ltb, eqb, length, take};
ghost use Rattle.std.specs.Io.{ReadsAtMost};
ghost use Rattle.streams.specs.Passing.{read_size, HearsFront, GoesOn, PassesFront, PassesAll, brought};

use std::io::{self, ErrorKind, Read};
use std::thread;

// Bytes to a read, and room for what is said of some of them.
pub const READ_SIZE: usize = 65536;

// A proved loop has to end, and nothing says that the input does: so the reads are counted, up to a number that no run
// comes to and that keeps the count of the bytes within 64 bits.
pub const READS: u64 = 281474976710655;

// The calls of one write are counted as the reads are.
const CALLS: u64 = u64::MAX;

// How many bytes standard output was asked to take, and how many it took.
#[derive(Clone, Copy)]
pub struct Handover {
    pub asked: usize,
    pub took: usize,
}

// How many bytes a listener took, and how many it wrote to say of them.
#[derive(Clone, Copy)]
pub struct Heard {
    pub used: usize,
    pub written: usize,
}

// Who hears the bytes that a program reads, and has something to say of them. Between two bytes it is in a state:
// `after` gives the one behind a run of bytes, and `said` what there is to say along the run.
pub trait Listener {
    ghost after: { Self → List ℕ → Self };

    ghost said: { Self → List ℕ → List ℕ };

    // Takes some bytes at the front of those that there are, and writes what there is to say of them to the front of
    // the buffer.
    fn hear(&mut self, bytes: &[u8], out: &mut [u8; READ_SIZE]) -> Heard
        requires { 0 < length bytes.now }
        ensures { HearsFront after said self.old bytes.now self.new out.new result };

    ghost goes_on: { GoesOn after said };
}

// How many bytes were used, and what became of what there was to say of them.
#[derive(Clone, Copy)]
struct Passed {
    used: usize,
    handover: Handover,
}

// What the system answered to a read, and what became of its bytes.
#[derive(Drop)]
struct Went {
    got: io::Result<Option<usize>>,
    passed: Passed,
}

// How many bytes were used in all, what the system answered to the last read, and what became of what there was to
// say of its bytes.
#[derive(Drop)]
pub struct Ran {
    pub heard: u64,
    pub got: io::Result<Option<usize>>,
    pub handover: Handover,
}

impl Handover {
    pub const NOTHING: Handover = Handover { asked: 0, took: 0 };

    fn is_whole(self) -> bool
        ensures { result ≡ eqb self.took self.asked }
    {
        self.took == self.asked
    }
}

// How many bytes a call moved; none where it is to be made again, since it failed, but only because nothing was there
// yet, or no room, on a descriptor that does not wait, or because a signal came first.
fn moved(answer: io::Result<usize>) -> io::Result<Option<usize>>
    ensures moves { IfOk answer (λ n. result ≡ Ok (Some n)) }
    ensures fails { IfErr answer (λ _. IfOk result (λ n. n ≡ None)) }
{
    match answer {
        Ok(n) => Ok(Some(n)),
        Err(error) => match error.kind() {
            ErrorKind::WouldBlock | ErrorKind::Interrupted => {
                thread::yield_now();
                Ok(None)
            }
            _ => Err(error),
        },
    }
}

// What a read brought, which is no more than there was room for.
pub fn read(from: &mut impl Read, input: &mut [u8]) -> io::Result<Option<usize>>
    ensures { (n : ℕ) → result ≡ Ok (Some n) → n ≤ length input.new }
{
    moved(from.read(input))
}

// All of the bytes, in as many calls as it takes.
pub fn print(rt: &(impl Print + Eprint), program: &str, bytes: &[u8]) -> Handover
    ensures { (result.asked ≡ length bytes.now) × (result.took ≤ result.asked) }
{
    let asked = bytes.len();
    let mut took: usize = 0;
    for _ in 0..CALLS {
        if took == asked {
            break;
        }
        match moved(rt.write_some(&bytes[took..])) {
            Ok(None) => {}
            Ok(Some(n)) if n > 0 => took += n,
            stuck => {
                // A call that moved nothing may say no more than that.
                let error = stuck.err().unwrap_or(io::Error::from_raw_os_error(0));
                let _ = eprintln!(rt; "{program}: cannot write to standard output: {error}");
                break;
            }
        }
    }
    Handover { asked, took }
}

// Whether there is to be another read.
pub fn goes_on(
    rt: &impl Eprint,
    program: &str,
    got: &io::Result<Option<usize>>,
    handover: Handover,
) -> bool
    ensures { (n : ℕ) → got.now ≡ Ok (Some n) → result ≡ ltb 0 n && eqb handover.took handover.asked }
{
    match got {
        Ok(Some(n)) => *n > 0 && handover.is_whole(),
        Ok(None) => true,
        Err(error) => {
            let _ = eprintln!(rt; "{program}: cannot read standard input: {error}");
            false
        }
    }
}

// What there is to say of some bytes at the front.
fn pass_some<L: Listener>(
    rt: &(impl Print + Eprint),
    program: &str,
    listener: &mut L,
    bytes: &[u8],
    out: &mut [u8; READ_SIZE],
) -> Passed
    requires { 0 < length bytes.now }
    ensures passes_on { PassesFront L.after L.said listener.old bytes.now listener.new result.used result.handover }
    ensures used_nonzero { 0 < result.used }
    ensures asked_in_bounds { result.handover.asked ≤ read_size }
    ensures out_after { take result.handover.asked out.new ≡ L.said listener.old (take result.used bytes.now) }
{
    let heard = listener.hear(bytes, out);
    let handover = print(rt, program, &out[..heard.written]);
    Passed {
        used: heard.used,
        handover,
    }
}

// What there is to say of all bytes of a read, unless the system does not take some of it.
fn pass_all<L: Listener>(
    rt: &(impl Print + Eprint),
    program: &str,
    listener: &mut L,
    bytes: &[u8],
    out: &mut [u8; READ_SIZE],
) -> Passed
    requires { length bytes.now ≤ read_size }
    ensures passes_on { PassesFront L.after L.said listener.old bytes.now listener.new result.used result.handover }
    ensures used_value { result.handover.took ≡ result.handover.asked → result.used ≡ length bytes.now }
{
    let mut used: usize = 0;
    let mut handover = Handover::NOTHING;
    while used < bytes.len() && handover.is_whole() {
        let passed = pass_some(rt, program, listener, &bytes[used..], out);
        used += passed.used;
        handover.asked += passed.handover.asked;
        handover.took += passed.handover.took;
    }
    Passed { used, handover }
}

// The bytes of the next read, and what there is to say of them.
fn read_on<L: Listener>(
    rt: &(impl Print + Eprint),
    program: &str,
    from: &mut impl Read,
    listener: &mut L,
    input: &mut [u8; READ_SIZE],
    out: &mut [u8; READ_SIZE],
) -> Went
    ensures passes_on { PassesFront L.after L.said listener.old (brought result.got input.new) listener.new result.passed.used result.passed.handover }
    ensures used_value { result.passed.handover.took ≡ result.passed.handover.asked → result.passed.used ≡ length (brought result.got input.new) }
{
    let got = read(from, input);
    let n = match &got {
        Ok(Some(n)) => *n,
        _ => 0,
    };
    let passed = pass_all(rt, program, listener, &input[..n], out);
    Went { got, passed }
}

// Reads to the end, and says of all that was read what there is to say, unless a call of the system fails.
pub fn listen<L: Listener>(
    rt: &(impl Print + Eprint),
    program: &str,
    from: &mut impl Read,
    listener: &mut L,
) -> Ran
    ensures { PassesAll L.after listener.old listener.new result.heard result.got result.handover }
{
    let mut input = [0u8; READ_SIZE];
    let mut out = [0u8; READ_SIZE];
    let mut heard: u64 = 0;
    for i in 0..READS {
        let Went { got, passed } = read_on(rt, program, from, listener, &mut input, &mut out);
        heard += passed.used as u64;
        if !goes_on(rt, program, &got, passed.handover) {
            return Ran {
                heard,
                got,
                handover: passed.handover,
            };
        }
    }
    let _ = eprintln!(rt; "{program}: more reads than can be counted");
    Ran {
        heard,
        got: Ok(None),
        handover: Handover::NOTHING,
    }
}
