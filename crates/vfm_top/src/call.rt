//! The top call.

ghost use Rattle.std.specs.Prelude.{◌≡◌, ◌↔◌, Some, None, IfSome, IsTrue, map, string_bytes};
ghost use Rattle.vfm_outside.specs.Tells.{WiresTell, source_tells, sink_tells, wires_tell};
ghost use Rattle.vfm_top.specs.Form.{form_of};
ghost use Rattle.vfm_top.specs.Call.{outside, call_of};
ghost use Rattle.vfm_top.specs.Answers.{Ends, Promises};
ghost use Rattle.vfm_top.specs.Causes.{is_run};
ghost use Rattle.vfm_top.specs.Text.{path_status, path_text};
ghost use Rattle.vfm_types.specs.Paths.{path_of};

use crate::Status;
use crate::audited::audit_sources;
use crate::outcome::{outcome_of_load, outcome_of_source};
use crate::print::{print_audit, print_line, print_outcome, print_path};
use crate::summary::print_load;
use crate::words::{Form, abort_after, load_number, read_words};
use std::alloc::Global;
use std::sync::Wait;
use std::thread::Threads;
use vfm_outside::{Beat, Sink, Source, Wires};
use vfm_states::path;
use vfm_types::{Flags, MigState};

/// Prints the path between two states, or why there is none.
fn answer_path<S: Sink>(from: MigState, to: MigState, flags: Flags, out: &mut S) -> Status
    ensures { Ends result (path_status (path_of from to flags)) (path_text (path_of from to flags))
        (sink_tells (S.holds out.old) (S.faults out.old)) (sink_tells (S.holds out.new) (S.faults out.new)) }
{
    print_path(path(from, to, flags), out)
}

/// Does what `run` does of words that need no machine, and answers as it does. `None`, with nothing read or written,
/// exactly where the words ask for a move.
pub fn local<D: Source, R: Source, S: Sink>(
    alloc: Global,
    words: &[String],
    desc: &mut D,
    report: &mut R,
    out: &mut S,
) -> Option<Status>
    ensures machine { result ≡ None ↔ IsTrue (is_run (form_of (map string_bytes words.now))) }
    ensures unwritten { result ≡ None → sink_tells (S.holds out.new) (S.faults out.new) ≡ sink_tells (S.holds out.old) (S.faults out.old) }
    ensures unread { result ≡ None → source_tells (D.left desc.new) (D.faults desc.new) ≡ source_tells (D.left desc.old) (D.faults desc.old) }
    ensures untouched { result ≡ None → source_tells (R.left report.new) (R.faults report.new) ≡ source_tells (R.left report.old) (R.faults report.old) }
    ensures promises { IfSome result (λ status. (wires : WiresTell) → Promises (call_of (map string_bytes words.now)
        (outside (source_tells (D.left desc.old) (D.faults desc.old)) (source_tells (R.left report.old) (R.faults report.old)) wires (sink_tells (S.holds out.old) (S.faults out.old)))
        (outside (source_tells (D.left desc.new) (D.faults desc.new)) (source_tells (R.left report.new) (R.faults report.new)) wires (sink_tells (S.holds out.new) (S.faults out.new)))
        status)) }
{
    let Some(form) = read_words(words) else {
        return Some(print_line(Status::BadWords, out));
    };
    match form {
        Form::Paths { from, to, flags } => Some(answer_path(from, to, flags, out)),
        Form::Audit => Some(print_audit(audit_sources(alloc, desc, report), out)),
        Form::Run { abort_after: _ } => None,
        Form::Load { number: _ } => None,
    }
}

/// Does what the words ask for, prints it, and answers how that ended.
///
/// The words, without the program's name, are `run FILE`, which migrates the machine that `desc` describes over `wires` and
/// prints the report; `run FILE abort N`, with N from 1 to 9, which does the same, but the source gives up once pass N has
/// ended; `load N`, with N from 0 to 4,294,967,295 in decimal without a leading zero, which migrates the machine of generated
/// load N and prints its summary; `audit FILE REPORT`, which audits what `report` gives as the report of a run of that machine; or
/// `paths FROM TO FLAGS`, which prints a path between device states. Others are `BadWords`. A description is read to its
/// end or up to 16,777,217 bytes, by `run` and `audit` alone, and a report to its end or up to 134,217,729 bytes, by
/// `audit` alone; a failed read is `ReadFault`, whatever another read would give. `wires` are asked for links once at most,
/// by `run` and `load` alone, and get them back before anything is printed. Where a write to `out` fails, the answer is
/// `WriteFault`, and `out` has a prefix of the text. `beat` is told of the attempts of the destination's workers.
pub fn run<H: Threads + Wait + Sync, D: Source, R: Source, S: Sink, W: Wires, B: Beat + Sync>(
    rt: &H,
    alloc: Global,
    words: &[String],
    desc: &mut D,
    report: &mut R,
    wires: &mut W,
    out: &mut S,
    beat: &B,
) -> Status
    ensures { Promises (call_of (map string_bytes words.now)
        (outside (source_tells (D.left desc.old) (D.faults desc.old)) (source_tells (R.left report.old) (R.faults report.old))
        (wires_tell (W.asked wires.old) (W.carried wires.old) (W.faults wires.old)) (sink_tells (S.holds out.old) (S.faults out.old)))
        (outside (source_tells (D.left desc.new) (D.faults desc.new)) (source_tells (R.left report.new) (R.faults report.new))
        (wires_tell (W.asked wires.new) (W.carried wires.new) (W.faults wires.new)) (sink_tells (S.holds out.new) (S.faults out.new)))
        result) }
{
    match local(alloc, words, desc, report, out) {
        Some(status) => status,
        None => match load_number(words) {
            Some(number) => {
                print_load(number, outcome_of_load(rt, alloc, number, wires, beat), out)
            }
            None => print_outcome(
                outcome_of_source(rt, alloc, desc, wires, abort_after(words), beat),
                out,
            ),
        },
    }
}
