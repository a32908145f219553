//! What no clause says: that audits find memory where there is enough. The answers to the edited reports
//! are those of `tools/audit-cases`.

ghost use Rattle.std.specs.Prelude.{IfOk};
ghost use Rattle.vfm_types.specs.Valid.{IsValid};

use crate::{ReportFault, Section, audit_journals, audit_report};
use std::alloc::Global;
use std::test::Fail;
use vfm_plain::Plain;
use vfm_report::read_report;
use vfm_types::{Bars, Bytes64, Desc, DevShape, Flags, Job, Jobs, Name, Queue, Shapes};

// A printed report: a machine of two pages and of one device was moved.
const LINES: [&str; 31] = [
    "status moved",
    "journal source",
    "issue 0 0",
    "deliver 0 0",
    "complete 0 0",
    "begin",
    "hold 0 STOP",
    "arc 0 STOP",
    "arc 0 STOP_COPY",
    "joint",
    "pass 1",
    "copy 0",
    "copy 1",
    "block 0 0",
    "state joint",
    "page 0 00000000000000000000000000000000",
    "page 1 00000102030400000000000000000000",
    "device 0 a accepted 1 done 1 lost 0",
    "buf 0 00000000000000000000000000000000000000000000000000000000000000000000000000000000000000000000000000000000000000000000000000000000",
    "bar 0 00000000000000000000000000000000000000000000000000000000000000000000000000000000000000000000000000000000000000000000000000000000",
    "journal destination",
    "resume",
    "arc 0 STOP",
    "arc 0 RUNNING",
    "state final",
    "page 0 00000000000000000000000000000000",
    "page 1 00000102030400000000000000000000",
    "device 0 a accepted 1 done 1 lost 0",
    "buf 0 00000000000000000000000000000000000000000000000000000000000000000000000000000000000000000000000000000000000000000000000000000000",
    "bar 0 00000000000000000000000000000000000000000000000000000000000000000000000000000000000000000000000000000000000000000000000000000000",
    "end",
];

// Edited reports: a letter, the line that is edited, what the audit of what comes of it answers, and a text. That line is
// replaced by the text (r), left out (d), doubled (t) or exchanged with the next (s).
const TABLE: &str = "r|1|legal 15|status differs
s|3|broken 0 1|
s|4|broken 1 1|
d|5|broken 2 5|
d|6|broken 3 10|
t|6|broken 4 10|
r|7|broken 4 2|hold 0 STOP_COPY
d|7|broken 4 2|
s|7|broken 4 2|
t|8|broken 6 2|
d|9|broken 6 8|
d|11|broken 8 6|
s|12|broken 9 6|
d|14|broken 11 8|
r|14|broken 11 7|dry 0
d|22|broken 12 10|
r|23|broken 13 2|arc 0 RUNNING
r|24|broken 14 2|arc 0 STOP_COPY
d|24|legal 14|
r|16|joint|page 0 00000000000000000000000000000001
r|17|joint|page 1 00000102030500000000000000000000
r|18|joint|device 0 a accepted 1 done 0 lost 0
r|27|final|page 1 00000102030500000000000000000000
r|28|final|device 0 a accepted 2 done 1 lost 0
r|28|final|device 0 a accepted 1 done 1 lost 1
t|31|bad 32|";

// Puts a line after a text.
fn add_line(text: &mut Vec<u8>, line: &str) -> Result<(), Fail> {
    text.extend_from_slice(line.as_bytes())?;
    text.push(10)?;
    Ok(())
}

// One device with one write of four bytes.
fn one_device(alloc: Global) -> Result<Desc, Fail>
    ensures { IfOk result IsValid }
{
    let bytes = Bytes64::of(&[1, 2, 3, 4]).ok_or("bytes")?;
    let jobs = vec![in alloc; Job::Write { at: 18, bytes }]?;
    let queue = vec![in alloc; 0]?;
    let shape = DevShape {
        name: Name::of(b"a").ok_or("name")?,
        flags: Flags::of(1).ok_or("flags")?,
        bars: Bars::of(&[64]).ok_or("bars")?,
        window: 1,
        tells: true,
        budget: 1,
        fails: 0,
        jobs: Jobs::of(jobs),
        queue: Queue::of(queue),
    };
    let shapes = vec![in alloc; shape]?;
    let desc = Desc {
        session: 7,
        page: 16,
        pages: 2,
        channels: 1,
        version: 1,
        begin: 99,
        rounds: 0,
        threshold: 0,
        devices: Shapes::of(shapes),
    };
    Ok(Desc::new(desc)?)
}

// The report with this edit of line `at`.
fn edited(alloc: Global, letter: &str, at: usize, text: &str) -> Result<Vec<u8>, Fail> {
    let mut report = Vec::new(alloc);
    for i in 0..LINES.len() {
        if i + 1 != at {
            add_line(&mut report, LINES[i])?;
        }
        if i + 1 == at && letter == "t" {
            add_line(&mut report, LINES[i])?;
            add_line(&mut report, LINES[i])?;
        }
        if i + 1 == at && letter == "r" {
            add_line(&mut report, text)?;
        }
        if i > 0 && i == at && letter == "s" {
            add_line(&mut report, LINES[i - 1])?;
        }
    }
    Ok(report)
}

// What the audit of these bytes answers, in words.
fn answer(alloc: Global, desc: &Desc, bytes: &[u8]) -> Result<String, Fail>
    requires { IsValid desc.now }
{
    let Ok(report) = read_report(alloc, desc, bytes) else {
        return Ok(String::from_str(alloc, "bad 32")?);
    };
    Ok(match audit_report(alloc, desc, &report) {
        Ok(count) => format!(in alloc; "legal {count}")?,
        Err(ReportFault::Broken { place, rule }) => {
            let rule = rule.number();
            format!(in alloc; "broken {place} {rule}")?
        }
        Err(ReportFault::StateDiffers(Section::Joint)) => String::from_str(alloc, "joint")?,
        Err(ReportFault::StateDiffers(Section::Last)) => String::from_str(alloc, "final")?,
        Err(ReportFault::NoMemory) => return Err("out of memory".into()),
    })
}

#[test]
fn edited_reports_have_their_audits(rt: HostRuntime) -> Result<(), Fail> {
    let alloc = rt.alloc();
    let desc = one_device(alloc)?;
    for case in TABLE.lines() {
        let (letter, rest) = case.split_once('|').ok_or("letter")?;
        let (at, rest) = rest.split_once('|').ok_or("line")?;
        let (want, text) = rest.split_once('|').ok_or("answer")?;
        let at = at.parse::<usize>().map_err(|_| "line")?;
        let report = edited(alloc, letter, at, text)?;
        let found = answer(alloc, &desc, report.as_slice())?;
        assert_eq!(rt; found.as_str(), want);
    }
    Ok(())
}

#[test]
fn a_joint_state_needs_a_joint(rt: HostRuntime) -> Result<(), Fail> {
    let alloc = rt.alloc();
    let desc = one_device(alloc)?;
    let mut text = Vec::new(alloc);
    for line in &LINES[..9] {
        add_line(&mut text, line)?;
    }
    for line in &LINES[14..20] {
        add_line(&mut text, line)?;
    }
    add_line(&mut text, "end")?;
    let found = answer(alloc, &desc, text.as_slice())?;
    assert_eq!(rt; found.as_str(), "joint");
    Ok(())
}

// The machine of the first lines of the report, as its journals alone make it.
fn machine_of(alloc: Global, desc: &Desc, lines: usize) -> Result<Plain, Fail>
    requires { IsValid desc.now }
{
    let mut text = Vec::new(alloc);
    for i in 0..lines.min(LINES.len()) {
        add_line(&mut text, LINES[i])?;
    }
    add_line(&mut text, "end")?;
    let report = read_report(alloc, desc, text.as_slice())?;
    Ok(audit_journals(alloc, desc, &report)?)
}

#[test]
fn journals_are_audited(rt: HostRuntime) -> Result<(), Fail> {
    let alloc = rt.alloc();
    let desc = one_device(alloc)?;
    let described = Plain::of(alloc, &desc)?;
    // with no entry, and with an issue alone, the machine is the described one; a delivery makes another
    assert!(rt; machine_of(alloc, &desc, 2)?.same(&described));
    assert!(rt; machine_of(alloc, &desc, 3)?.same(&described));
    assert!(rt; !machine_of(alloc, &desc, 4)?.same(&described));
    Ok(())
}
