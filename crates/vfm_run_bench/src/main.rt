//! Does what `vfmig` does, over links of any size. `tools/bench` times it.
//!
//! Its words are the number of pieces of 256 bytes that each link holds, 1 to 1,048,576, and then those of `vfmig`, but for
//! `--help` and `--version`.
#![tactic(auto)]

ghost use Rattle.std.specs.Prelude.{◌<◌, [], None, Some, IfSome, map, string_bytes};
ghost use Rattle.vfm_outside.specs.Tells.{WiresTell, wires_tell};
ghost use Rattle.vfm_top.specs.Answers.{Promises};
ghost use Rattle.vfm_files.specs.Over.{Failures, call_over_files};

use anyhow::{Result, bail};
use std::alloc::Global;
use std::process::ExitCode;
use std::rt::Files;
use std::sync::Wait;
use std::thread::Threads;
use vfm_files::{given_words, run_over_files};
use vfm_outside::RingWires;
use vfm_top::{Status, number};

/// The most pieces that a link may hold.
const MOST: usize = 1_048_576;

// the number of pieces that a word asks for
fn slots_of(word: &str) -> Option<usize>
    ensures { IfSome result (λ slots. 0 < slots) }
{
    match word.parse::<usize>() {
        Ok(slots) if 0 < slots && slots <= MOST => Some(slots),
        _ => None,
    }
}

// does what the words ask for over rings with so many slots
fn answer<H: Threads + Wait + Sync + Files + Print + Alloc<A = Global>>(
    rt: &H,
    slots: usize,
    words: &[String],
) -> Status
    requires { 0 < slots }
    ensures { (now : WiresTell) × (failures : Failures)
        × Promises (call_over_files (map string_bytes words.now) (wires_tell (Some []) None 0) now failures result) }
{
    let mut wires = RingWires::of(rt.alloc(), slots, 0, Vec::new(rt.alloc()));
    run_over_files(rt, words, &mut wires)
}

fn main(rt: HostRuntime) -> Result<ExitCode> {
    let words = given_words(&rt)?;
    let [first, rest @ ..] = words.as_slice() else {
        bail!("the number of pieces is missing");
    };
    let Some(slots) = slots_of(first.as_str()) else {
        bail!("the number of pieces is 1 to 1048576");
    };
    Ok(ExitCode::from(number(&answer(&rt, slots, rest))))
}
