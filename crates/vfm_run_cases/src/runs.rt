//! The run of a case: how it ended, a digest of what it printed, and what an audit says of that.

use crate::links::{Wiring, ends_of};
use crate::trouble::Trouble;
use crate::words::pairs;
use sha2::{Digest, Sha256};
use std::alloc::Global;
use std::net::Net;
use std::sync::Wait;
use std::thread::Threads;
use std::time::Duration;
use vfm_net::TcpWires;
use vfm_outside::{MemSink, MemSource, NoBeat, RingWires, ScriptWires, Wires};
use vfm_top::{number, run};

/// The most bytes that a run of the table prints.
const ROOM: usize = 4_000_000;

/// How many pieces a ring holds.
const SLOTS: usize = 4_096;

/// How many seconds a call on a socket may wait.
const PATIENCE: u64 = 10;

/// The most bytes of a read or a write.
const MOST: u32 = 65_536;

/// A case of the table.
#[derive(Clone, Copy)]
pub struct Case<'a> {
    /// The description.
    pub text: &'a str,
    /// After which pass the source is to give up, or `0`.
    pub abort: &'a str,
    /// Whether the digest is that of all that is printed, and not of the last state alone.
    pub whole: bool,
    /// What the move goes over.
    pub wiring: Wiring<'a>,
}

// a source of this text, which gives it in large pieces
fn source_of(alloc: Global, text: &[u8]) -> Result<MemSource, Trouble> {
    Ok(MemSource::of(Vec::from_slice(alloc, text)?, Vec::new(alloc), MOST))
}

// what these words print over these wires, and the number of their status
fn printed<H: Threads + Wait + Sync, W: Wires>(
    rt: &H,
    alloc: Global,
    words: &[&str],
    desc: &str,
    report: &[u8],
    wires: &mut W,
) -> Result<(u8, MemSink), Trouble> {
    let mut list = Vec::new(alloc);
    for word in words {
        list.push(String::from_str(alloc, word)?)?;
    }
    let mut desc = source_of(alloc, desc.as_bytes())?;
    let mut report = source_of(alloc, report)?;
    let mut out = MemSink::of(alloc, ROOM, Vec::new(alloc), MOST)?;
    let status = run(
        rt,
        alloc,
        list.as_slice(),
        &mut desc,
        &mut report,
        wires,
        &mut out,
        &NoBeat,
    );
    Ok((number(&status), out))
}

// the run of the case over these wires
fn moved<H: Threads + Wait + Sync, W: Wires>(
    rt: &H,
    alloc: Global,
    case: &Case,
    wires: &mut W,
) -> Result<(u8, MemSink), Trouble> {
    if case.abort == "0" {
        printed(rt, alloc, &["run", "machine"], case.text, b"", wires)
    } else {
        let words = ["run", "machine", "abort", case.abort];
        printed(rt, alloc, &words, case.text, b"", wires)
    }
}

// the run of the case
fn run_of<H: Threads + Wait + Sync + Net>(
    rt: &H,
    alloc: Global,
    case: &Case,
) -> Result<(u8, MemSink), Trouble>
where
    H::Stream: Send,
{
    match case.wiring {
        Wiring::Missing => moved(rt, alloc, case, &mut ScriptWires::of(alloc, None)),
        Wiring::Rings(calls) => {
            let calls = pairs(alloc, calls)?;
            moved(rt, alloc, case, &mut RingWires::of(alloc, SLOTS, 0, calls))
        }
        Wiring::Links(links) => {
            let ends = ends_of(alloc, links)?;
            moved(rt, alloc, case, &mut ScriptWires::of(alloc, Some(ends)))
        }
        Wiring::Tcp => {
            let mut wires = TcpWires::of(rt, alloc, Duration::from_secs(PATIENCE));
            moved(rt, alloc, case, &mut wires)
        }
    }
}

// the first line of a text, without its first word
fn first_line(text: &str) -> &str {
    let line = match text.split_once('\n') {
        Some((line, _)) => line,
        None => text,
    };
    match line.split_once(' ') {
        Some((_, rest)) => rest,
        None => "",
    }
}

// what the report says of the state at the end
fn last_state(text: &str) -> &str {
    match text.split_once("state final\n") {
        Some((_, state)) => match state.strip_suffix("end\n") {
            Some(lines) => lines,
            None => "",
        },
        None => "",
    }
}

/// What comes of a case: the number and the line of its status, the digest, and what the audit says.
pub fn answer_of<H: Threads + Wait + Sync + Net>(
    rt: &H,
    alloc: Global,
    case: &Case,
) -> Result<String, Trouble>
where
    H::Stream: Send,
{
    let (ended, out) = run_of(rt, alloc, case)?;
    let Ok(text) = str::from_utf8(out.bytes()) else {
        return Err(Trouble::Form);
    };
    let shown = if case.whole { text } else { last_state(text) };
    let what = if case.whole { "whole" } else { "state" };
    let mut hasher = Sha256::new();
    hasher.update(shown.as_bytes());
    let digest = hex::encode(alloc, hasher.finalize())?;
    let mut no_wires = ScriptWires::of(alloc, None);
    let words = ["audit", "machine", "report"];
    let (_, audit) = printed(rt, alloc, &words, case.text, out.bytes(), &mut no_wires)?;
    let Ok(found) = str::from_utf8(audit.bytes()) else {
        return Err(Trouble::Form);
    };
    let status = first_line(text);
    let verdict = first_line(found);
    let legal = if verdict.starts_with("legal ") {
        "legal"
    } else {
        verdict
    };
    Ok(format!(in alloc; "{ended} {status}: {what} {digest}, {legal}")?)
}
