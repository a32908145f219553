//! Whole runs from words to text: what they print, and how sources and sinks that fail end them.

use crate::{Status, number, run};
use std::alloc::Global;
use std::sync::Wait;
use std::test::Fail;
use std::thread::Threads;
use vfm_outside::{MemSink, MemSource, NoBeat, RingWires, ScriptWires, Wires};

const ONE: &str =
    r#"{"session":7,"page":16,"pages":2,"channels":1,"version":1,"begin":99,"rounds":0,"threshold":0,"devices":[{"name":"a","flags":1,"bar":64,"window":1,"tells":true,"budget":1,"fails":0,"jobs":[{"kind":"write","at":18,"hex":"01020304"}],"queue":[0]}]}"#;

const SOURCE: [&str; 14] = [
    "status moved",
    "journal source",
    "issue 0 0",
    "deliver 0 0",
    "complete 0 0",
    "begin",
    "hold 0 STOP",
    "arc 0 STOP",
    "arc 0 STOP_COPY",
    "joint",
    "pass 1",
    "copy 0",
    "copy 1",
    "block 0 0",
];

const STATE: [&str; 5] = [
    "page 0 00000000000000000000000000000000",
    "page 1 00000102030400000000000000000000",
    "device 0 a accepted 1 done 1 lost 0",
    "buf 0 00000000000000000000000000000000000000000000000000000000000000000000000000000000000000000000000000000000000000000000000000000000",
    "bar 0 00000000000000000000000000000000000000000000000000000000000000000000000000000000000000000000000000000000000000000000000000000000",
];

const WRITE: [&str; 3] = ["issue 0 0", "deliver 0 0", "complete 0 0"];

const DESTINATION: [&str; 4] = [
    "journal destination",
    "resume",
    "arc 0 STOP",
    "arc 0 RUNNING",
];

// Puts lines after a text.
fn add_lines(text: &mut Vec<u8>, lines: &[&str]) -> Result<(), Fail> {
    for line in lines {
        text.extend_from_slice(line.as_bytes())?;
        text.push(10)?;
    }
    Ok(())
}

// The report of the machine `ONE`.
fn report_of_one(alloc: Global) -> Result<Vec<u8>, Fail> {
    let mut text = Vec::new(alloc);
    add_lines(&mut text, &SOURCE)?;
    add_lines(&mut text, &["state joint"])?;
    add_lines(&mut text, &STATE)?;
    add_lines(&mut text, &DESTINATION)?;
    add_lines(&mut text, &["state final"])?;
    add_lines(&mut text, &STATE)?;
    add_lines(&mut text, &["end"])?;
    Ok(text)
}

// The report of the machine `ONE` whose source gave up behind its only pass.
fn report_of_one_aborted(alloc: Global) -> Result<Vec<u8>, Fail> {
    let mut text = Vec::new(alloc);
    add_lines(&mut text, &["status aborted 1"])?;
    add_lines(&mut text, &SOURCE[1..])?;
    add_lines(&mut text, &["abort", "arc 0 STOP", "arc 0 RUNNING"])?;
    add_lines(&mut text, &["state joint"])?;
    add_lines(&mut text, &STATE)?;
    add_lines(&mut text, &["state final"])?;
    add_lines(&mut text, &STATE)?;
    add_lines(&mut text, &["end"])?;
    Ok(text)
}

// The report of the machine `ONE` for which there were no links.
fn report_of_one_alone(alloc: Global) -> Result<Vec<u8>, Fail> {
    let mut text = Vec::new(alloc);
    add_lines(
        &mut text,
        &["status link-fault connect", "journal source", "abort"],
    )?;
    add_lines(&mut text, &WRITE)?;
    add_lines(&mut text, &["state final"])?;
    add_lines(&mut text, &STATE)?;
    add_lines(&mut text, &["end"])?;
    Ok(text)
}

// With which every move of load 7 ends, whatever order its steps take.
const LOAD_SEVEN: [&str; 5] = [
    "load 7",
    "accepted 8960",
    "done 8960",
    "lost 0",
    "digest 1eccda489d7b23dc1e76d551d80ad07d2261b5e64345cdf6b7970b73acb780f0",
];

// What load 7 prints at a status.
fn summary_of_seven(alloc: Global, status: &str) -> Result<Vec<u8>, Fail> {
    let mut text = Vec::new(alloc);
    add_lines(&mut text, &[status])?;
    add_lines(&mut text, &LOAD_SEVEN)?;
    Ok(text)
}

// Runs these words over rings, with a source of this text whose reads of these numbers fail.
fn run_words<H: Threads + Wait + Sync>(
    rt: &H,
    alloc: Global,
    words: &[&str],
    text: &str,
    failing: &[u32],
    out: &mut MemSink,
) -> Result<Status, Fail> {
    let mut wires = RingWires::of(alloc, 64, 0, Vec::new(alloc));
    run_over(rt, alloc, words, text, failing, &mut wires, out)
}

// The same over these wires.
fn run_over<H: Threads + Wait + Sync, W: Wires>(
    rt: &H,
    alloc: Global,
    words: &[&str],
    text: &str,
    failing: &[u32],
    wires: &mut W,
    out: &mut MemSink,
) -> Result<Status, Fail> {
    let mut list = Vec::new(alloc);
    for word in words {
        list.push(String::from_str(alloc, word)?)?;
    }
    let mut desc = MemSource::of(text.as_bytes().to_vec(alloc)?, failing.to_vec(alloc)?, 100);
    let mut report = MemSource::of(Vec::new(alloc), Vec::new(alloc), 1);
    Ok(run(
        rt,
        alloc,
        list.as_slice(),
        &mut desc,
        &mut report,
        wires,
        out,
        &NoBeat,
    ))
}

// A sink with ample room.
fn ample(alloc: Global) -> Result<MemSink, Fail> {
    Ok(MemSink::of(alloc, 4096, Vec::new(alloc), 1000)?)
}

// Whether these words with this description end with this status and print this text alone.
fn is_answered<H: Threads + Wait + Sync>(
    rt: &H,
    alloc: Global,
    words: &[&str],
    desc: &str,
    status: u8,
    text: &str,
) -> Result<bool, Fail> {
    let mut out = ample(alloc)?;
    let answer = run_words(rt, alloc, words, desc, &[], &mut out)?;
    Ok(number(&answer) == status && out.bytes() == text.as_bytes())
}

// No clause refuses a run that answers `no-memory` where there is enough; this test does.
#[test]
fn one_machine_is_moved(rt: HostRuntime) -> Result<(), Fail> {
    let alloc = rt.alloc();
    let mut out = ample(alloc)?;
    let status = run_words(&rt, alloc, &["run", "one.json"], ONE, &[], &mut out)?;
    assert_eq!(rt; number(&status), 0);
    assert_eq!(rt; out.bytes(), report_of_one(alloc)?.as_slice());
    Ok(())
}

#[test]
fn a_source_gives_up_after_a_pass(rt: HostRuntime) -> Result<(), Fail> {
    let alloc = rt.alloc();
    let mut out = ample(alloc)?;
    let words = ["run", "one.json", "abort", "1"];
    let status = run_words(&rt, alloc, &words, ONE, &[], &mut out)?;
    assert_eq!(rt; number(&status), 10);
    assert_eq!(rt; out.bytes(), report_of_one_aborted(alloc)?.as_slice());
    Ok(())
}

// The machine has one pass, so the second never ends.
#[test]
fn a_pass_that_never_comes_stops_no_move(rt: HostRuntime) -> Result<(), Fail> {
    let alloc = rt.alloc();
    let mut out = ample(alloc)?;
    let words = ["run", "one.json", "abort", "2"];
    let status = run_words(&rt, alloc, &words, ONE, &[], &mut out)?;
    assert_eq!(rt; number(&status), 0);
    assert_eq!(rt; out.bytes(), report_of_one(alloc)?.as_slice());
    Ok(())
}

#[test]
fn without_links_the_source_goes_on(rt: HostRuntime) -> Result<(), Fail> {
    let alloc = rt.alloc();
    let mut out = ample(alloc)?;
    let mut wires = ScriptWires::of(alloc, None);
    let words = ["run", "one.json"];
    let status = run_over(&rt, alloc, &words, ONE, &[], &mut wires, &mut out)?;
    assert_eq!(rt; number(&status), 5);
    assert_eq!(rt; out.bytes(), report_of_one_alone(alloc)?.as_slice());
    Ok(())
}

// Its description's source, whose first read fails, isn't asked.
#[test]
fn a_load_is_moved(rt: HostRuntime) -> Result<(), Fail> {
    let alloc = rt.alloc();
    let mut out = ample(alloc)?;
    let mut wires = RingWires::of(alloc, 4096, 0, Vec::new(alloc));
    let status = run_over(&rt, alloc, &["load", "7"], "", &[0], &mut wires, &mut out)?;
    assert_eq!(rt; number(&status), 0);
    assert_eq!(rt;
        out.bytes(),
        summary_of_seven(alloc, "status moved")?.as_slice()
    );
    Ok(())
}

// It does all its requests at the source, and ends as it does at the destination.
#[test]
fn a_load_without_links_ends_alike(rt: HostRuntime) -> Result<(), Fail> {
    let alloc = rt.alloc();
    let mut out = ample(alloc)?;
    let mut wires = ScriptWires::of(alloc, None);
    let status = run_over(&rt, alloc, &["load", "7"], "", &[0], &mut wires, &mut out)?;
    assert_eq!(rt; number(&status), 5);
    assert_eq!(rt;
        out.bytes(),
        summary_of_seven(alloc, "status link-fault connect")?.as_slice()
    );
    Ok(())
}

#[test]
fn words_without_a_form_are_refused(rt: HostRuntime) -> Result<(), Fail> {
    let alloc = rt.alloc();
    let rows: [&[&str]; 18] = [
        &["run", "x", "abort", "0"],
        &["run", "x", "abort", "10"],
        &["run", "x", "abort", ""],
        &["run", "x", "stop", "1"],
        &["run", "", "abort", "1"],
        &[],
        &["run"],
        &["run", ""],
        &["run", "x", "y"],
        &["load"],
        &["load", ""],
        &["load", "007"],
        &["load", "+7"],
        &["load", "4294967296"],
        &["load", "18446744073709551623"],
        &["load", "7", "abort", "1"],
        &["paths", "RUNNING", "STOP", "2"],
        &["paths", "RUNNINGS", "STOP", "1"],
    ];
    for words in rows {
        assert!(rt; is_answered(&rt, alloc, words, ONE, 1, "status bad-words\n")?);
    }
    Ok(())
}

// From, to, flags, the number of the status, and what is printed.
const PATHS: [(&str, &str, &str, u8, &str); 9] = [
    (
        "PRE_COPY",
        "RUNNING_P2P",
        "7",
        0,
        "path PRE_COPY RUNNING RUNNING_P2P\n",
    ),
    ("RUNNING", "STOP", "1", 0, "path RUNNING STOP\n"),
    (
        "PRE_COPY",
        "RESUMING",
        "7",
        0,
        "path PRE_COPY RUNNING RUNNING_P2P STOP RESUMING\n",
    ),
    (
        "RUNNING",
        "STOP_COPY",
        "7",
        0,
        "path RUNNING RUNNING_P2P STOP STOP_COPY\n",
    ),
    (
        "PRE_COPY",
        "STOP_COPY",
        "7",
        0,
        "path PRE_COPY PRE_COPY_P2P STOP_COPY\n",
    ),
    ("RUNNING", "RUNNING", "1", 0, "path RUNNING\n"),
    (
        "STOP_COPY",
        "PRE_COPY",
        "7",
        14,
        "refused forbidden STOP_COPY PRE_COPY\n",
    ),
    (
        "RUNNING",
        "PRE_COPY",
        "3",
        14,
        "refused unsupported PRE_COPY\n",
    ),
    ("ERROR", "RUNNING", "7", 14, "refused from-error\n"),
];

#[test]
fn paths_are_printed_or_refused(rt: HostRuntime) -> Result<(), Fail> {
    let alloc = rt.alloc();
    for (from, to, flags, status, text) in PATHS {
        assert!(rt; is_answered(&rt, alloc, &["paths", from, to, flags], "", status, text)?);
    }
    Ok(())
}

#[test]
fn faulty_descriptions_are_refused(rt: HostRuntime) -> Result<(), Fail> {
    let alloc = rt.alloc();
    let rows = [
        ("{", "status bad-description not-json\n"),
        ("{}", "status bad-description missing session\n"),
    ];
    for (desc, text) in rows {
        assert!(rt; is_answered(&rt, alloc, &["run", "one.json"], desc, 2, text)?);
    }
    Ok(())
}

#[test]
fn a_failed_read_is_answered(rt: HostRuntime) -> Result<(), Fail> {
    let alloc = rt.alloc();
    let mut out = ample(alloc)?;
    let status = run_words(&rt, alloc, &["run", "one.json"], ONE, &[0], &mut out)?;
    assert_eq!(rt; number(&status), 3);
    assert_eq!(rt; out.bytes(), b"status read-fault\n".as_slice());
    Ok(())
}

#[test]
fn a_failed_write_leaves_a_prefix(rt: HostRuntime) -> Result<(), Fail> {
    let alloc = rt.alloc();
    let mut out = MemSink::of(alloc, 4096, [2u32].to_vec(alloc)?, 16)?;
    let status = run_words(&rt, alloc, &["run", "one.json"], ONE, &[], &mut out)?;
    assert_eq!(rt; number(&status), 4);
    assert_eq!(rt;
        out.bytes(),
        b"status moved\njournal source\nissu".as_slice()
    );
    Ok(())
}
