//! The program: its own texts, and the words of the command line given to the top call over files.
#![tactic(auto)]

ghost use Rattle.std.specs.Prelude.{◌≡◌, ◌⊎◌, [], None, Some, map, is_some, string_bytes, IsTrue, IsFalse};
ghost use Rattle.vfm_status.specs.declared.status.Status.TheVariants.{Printed, WriteFault};
ghost use Rattle.vfm_outside.specs.Tells.{sink_tells, wires_tell, WiresTell};
ghost use Rattle.vfm_top.specs.Answers.{Ends, Promises};
ghost use Rattle.vfm_files.specs.Over.{Failures, call_over_files};
ghost use Rattle.vfm_main.specs.Own.{is_own};

use std::alloc::Global;
use std::process::ExitCode;
use std::rt::Files;
use std::sync::Wait;
use std::thread::Threads;
use vfm_files::{OutSink, given_words, run_over_files};
use vfm_outside::{RingWires, Sink, write_all};
use vfm_top::{Status, number};

const HELP: &str = "\
vfmig: migrates a described machine with its devices, and prints what happened

vfmig run FILE             runs the machine that FILE describes, moves it and prints the report
vfmig run FILE abort N     the same, but the source gives up once pass N, 1 to 9, has ended
vfmig load N               moves the machine of generated load N, 0 to 4294967295, and prints its sums and digest
vfmig audit FILE REPORT    audits REPORT as the report of a run of the machine that FILE describes
vfmig paths FROM TO FLAGS  prints the path between two device states, such as RUNNING and STOP_COPY,
                           for a device with FLAGS 1, 3, 5 or 7
vfmig --help               prints this
vfmig --version            prints the version
";

const VERSION: &str = "vfmig 0.1.0\n";

/// How many pieces each link holds. Both ends run one after the other, so a channel with more of them fails at its source.
const SLOTS: usize = 4_096;

/// What the program says of itself, where the words ask for that alone.
fn own_text(words: &[String]) -> Option<&'static str>
    ensures { is_some result ≡ is_own (map string_bytes words.now) }
{
    if words.len() != 1 {
        return None;
    }
    let word = words[0].as_bytes();
    if word == b"--help".as_slice() {
        return Some(HELP);
    }
    if word == b"--version".as_slice() {
        return Some(VERSION);
    }
    None
}

/// Prints a text.
fn print_text<S: Sink>(text: &str, out: &mut S) -> Status
    ensures { Ends result Printed text.now (sink_tells (S.holds out.old) (S.faults out.old)) (sink_tells (S.holds out.new) (S.faults out.new)) }
{
    match write_all(out, text.as_bytes()) {
        Ok(()) => Status::Printed,
        Err(_) => Status::WriteFault,
    }
}

/// Does what the words ask for, with files and standard output. All but the program's own words go to the top call, over
/// rings in memory that nobody has asked for links before.
fn answer<H: Threads + Wait + Sync + Files + Print + Alloc<A = Global>>(
    rt: &H,
    words: &[String],
) -> Status
    ensures own { IsTrue (is_own (map string_bytes words.now)) → (result ≡ Printed) ⊎ (result ≡ WriteFault) }
    ensures handed { IsFalse (is_own (map string_bytes words.now)) → (now : WiresTell) × (failures : Failures)
        × Promises (call_over_files (map string_bytes words.now) (wires_tell (Some []) None 0) now failures result) }
{
    if let Some(text) = own_text(words) {
        return print_text(text, &mut OutSink::of(rt));
    }
    let mut wires = RingWires::of(rt.alloc(), SLOTS, 0, Vec::new(rt.alloc()));
    run_over_files(rt, words, &mut wires)
}

fn main(rt: HostRuntime) -> ExitCode {
    let status = match given_words(&rt) {
        Ok(words) => answer(&rt, words.as_slice()),
        Err(_) => Status::NoMemory,
    };
    ExitCode::from(number(&status))
}
