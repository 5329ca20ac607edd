// Prints a line for each frame and each refusal in the bytes of standard input, and at their end the
// totals: document 01, 'Examples'. What the lines are is proved of the library. Here it is proved that
// the bytes of each read are handed to it, once and in order, and its lines to the system; what is left
// to trust are the calls of the system themselves, in `read` and `print` of streams.
// What goes wrong is said on standard error, and then there is no last line.
#![tactic(auto)]

ghost use Rattle.std.specs.Prelude.{◌≡◌, Ok, Some};
ghost use Rattle.dump_lines.specs.Lines.{last_line};
ghost use Rattle.streams.specs.Passing.{HandsOver, PassesAll};
ghost use Rattle.dump.specs.Passing.{fresh_lines, lines_after, lines_said, lines_go_on};

use dump_lines::{Dump, LINE_MAX};
use std::io::Read;
use streams::{Handover, Heard, Listener, READ_SIZE, Ran};

const PROGRAM: &str = "dump";

// The dump behind the bytes so far, which says their lines.
#[derive(Drop)]
struct Lines {
    dump: Dump,
}

// What became of the bytes, the lines behind them, and what became of the last line.
#[derive(Drop)]
struct Finished {
    lines: Lines,
    ran: Ran,
    end: Handover,
}

impl Listener for Lines {
    ghost after = { lines_after };

    ghost said = { lines_said };

    fn hear(&mut self, bytes: &[u8], out: &mut [u8; READ_SIZE]) -> Heard {
        let taken = self.dump.take(bytes, out);
        Heard {
            used: taken.used,
            written: taken.written,
        }
    }

    ghost goes_on = { lines_go_on };
}

impl Lines {
    fn new() -> Lines
        ensures { result ≡ fresh_lines }
    {
        Lines { dump: Dump::new() }
    }

    fn print_end(&self, rt: &(impl Print + Eprint), out: &mut [u8; LINE_MAX]) -> Handover
        ensures { HandsOver (last_line self.now.dump.totals) out.new result }
    {
        match self.dump.end(out) {
            Ok(n) => streams::print(rt, PROGRAM, &out[..n]),
            Err(_) => Handover::NOTHING,
        }
    }
}

// The last line stands for an input that was read to its end.
fn run(rt: &(impl Print + Eprint), from: &mut impl Read, out: &mut [u8; LINE_MAX]) -> Finished
    ensures passes_all { PassesAll lines_after fresh_lines result.lines result.ran.heard result.ran.got result.ran.handover }
    ensures hands_over { result.ran.got ≡ Ok (Some 0) → HandsOver (last_line result.lines.dump.totals) out.new result.end }
    ensures asked_value { (result.ran.got ≡ Ok (Some 0) → ⊥) → result.end.asked ≡ 0 }
{
    let mut lines = Lines::new();
    let ran = streams::listen(rt, PROGRAM, from, &mut lines);
    let end = match &ran.got {
        Ok(Some(0)) => lines.print_end(rt, out),
        _ => Handover::NOTHING,
    };
    Finished { lines, ran, end }
}

fn main(rt: HostRuntime) {
    let mut out = [0u8; LINE_MAX];
    run(&rt, &mut rt.stdin(), &mut out);
}
