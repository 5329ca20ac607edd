// Plays a transmitter: hears what a host sends on standard input, and writes what one fixed device answers to
// standard output, each response as soon as the request's last byte was read. What is answered is proved of the
// library `device`. Here it is proved that the bytes of each read are fed to one decoder, once and in order, and each
// answer handed to the system; what is left to trust are the calls of the system themselves, the read in `read` and
// the write in `print` of the library `streams`. What goes wrong is said on standard error.
#![tactic(auto)]

ghost use Rattle.std.specs.Prelude.{◌≡◌, ◌≤◌, length, take};
ghost use Rattle.device.specs.Conversation.{answer_bytes, answer_heard};
ghost use Rattle.streams.specs.Passing.{PassesAll};
ghost use Rattle.transmitter.specs.Passing.{fresh_device, device_after, device_said, device_goes_on};

use device::answer as answer_to;
use framing::{Decoder, Frame};
use refusal::Refusal;
use std::io::Read;
use streams::{Heard, Listener, READ_SIZE, Ran};

// The decoder behind the bytes so far. The device itself keeps nothing from one frame to the next.
#[derive(Drop)]
struct Device {
    decoder: Decoder,
}

// What became of the bytes, and the device behind them.
#[derive(Drop)]
struct Finished {
    device: Device,
    ran: Ran,
}

// The answer to a frame, which may be none.
fn respond(frame: Frame, out: &mut [u8; READ_SIZE]) -> usize
    ensures bound { result ≤ length out.new }
    ensures front { take result out.new ≡ answer_bytes frame }
{
    answer_to(frame, out).unwrap_or(0)
}

// A device says nothing to what is no frame.
fn turn(heard: Result<Option<Frame>, Refusal>, out: &mut [u8; READ_SIZE]) -> usize
    ensures bound { result ≤ length out.new }
    ensures front { take result out.new ≡ answer_heard heard }
{
    match heard {
        Ok(Some(frame)) => respond(frame, out),
        Ok(None) | Err(_) => 0,
    }
}

impl Listener for Device {
    ghost after = { device_after };

    ghost said = { device_said };

    // One byte, so that an answer goes out before the next byte is heard.
    fn hear(&mut self, bytes: &[u8], out: &mut [u8; READ_SIZE]) -> Heard {
        let fed = self.decoder.feed(bytes[0]);
        self.decoder = fed.next;
        Heard {
            used: 1,
            written: turn(fed.heard, out),
        }
    }

    ghost goes_on = { device_goes_on };
}

fn run(rt: &(impl Print + Eprint), from: &mut impl Read) -> Finished
    ensures { PassesAll device_after fresh_device result.device result.ran.heard result.ran.got result.ran.handover }
{
    let mut device = Device {
        decoder: Decoder::new(),
    };
    let ran = streams::listen(rt, "transmitter", from, &mut device);
    Finished { device, ran }
}

fn main(rt: HostRuntime) {
    run(&rt, &mut rt.stdin());
}
