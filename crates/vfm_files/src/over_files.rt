//! The top call over files and standard output.

ghost use Rattle.std.specs.Prelude.{◌≡◌, [], map, string_bytes, slice_index_or};
ghost use Rattle.vfm_outside.specs.Tells.{wires_tell};
ghost use Rattle.vfm_top.specs.Answers.{Promises};
ghost use Rattle.vfm_files.specs.Over.{Failures, call_over_files};

use crate::{FileSource, OutSink};
use std::alloc::Global;
use std::rt::Files;
use std::sync::Wait;
use std::thread::Threads;
use vfm_outside::{NoBeat, Wires};
use vfm_top::{Status, run};

/// The word at a place, or nothing where there is none.
fn word_at(words: &[String], at: usize) -> &str
    ensures { result.now ≡ slice_index_or (map string_bytes words.now) at [] }
{
    if at < words.len() {
        words[at].as_str()
    } else {
        ""
    }
}

/// Does what the words ask for, as `vfm_top::run` does, with files and standard output: the second word names the file of
/// the description, the third that of the report. The two ends of a move meet over `wires`. The files and the output show
/// no bytes, and how many reads and writes failed is seen by nobody but the call.
pub fn run_over_files<H: Threads + Wait + Sync + Files + Print + Alloc<A = Global>, W: Wires>(
    rt: &H,
    words: &[String],
    wires: &mut W,
) -> Status
    ensures { (failures : Failures) × Promises (call_over_files (map string_bytes words.now)
        (wires_tell (W.asked wires.old) (W.carried wires.old) (W.faults wires.old))
        (wires_tell (W.asked wires.new) (W.carried wires.new) (W.faults wires.new)) failures result) }
{
    let mut desc = FileSource::of(rt, word_at(words, 1));
    let mut report = FileSource::of(rt, word_at(words, 2));
    let mut out = OutSink::of(rt);
    run(
        rt,
        rt.alloc(),
        words,
        &mut desc,
        &mut report,
        wires,
        &mut out,
        &NoBeat,
    )
}
