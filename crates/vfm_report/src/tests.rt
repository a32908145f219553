//! What no clause says: which lines are read and which aren't, on lines written by hand. The expected lines of faults
//! are found by hand.

ghost use Rattle.std.specs.Prelude.{IfOk, IsTrue};
ghost use Rattle.vfm_types.specs.Ranges.{are_bar_sizes};
ghost use Rattle.vfm_types.specs.Valid.{IsValid};

use crate::{TextFault, read_entry, read_report};
use std::alloc::Global;
use std::test::Fail;
use vfm_types::{
    Bars, Bytes64, Desc, DevShape, DeviceId, Entry, Flags, Job, Jobs, MigState, Name, Queue, Shapes,
};

// A printed report: a machine of two pages and of one device was moved.
const LINES: [&str; 31] = [
    "status moved",
    "journal source",
    "issue 0 0",
    "deliver 0 0",
    "complete 0 0",
    "begin",
    "hold 0 STOP",
    "arc 0 STOP",
    "arc 0 STOP_COPY",
    "joint",
    "pass 1",
    "copy 0",
    "copy 1",
    "block 0 0",
    "state joint",
    "page 0 00000000000000000000000000000000",
    "page 1 00000102030400000000000000000000",
    "device 0 a accepted 1 done 1 lost 0",
    "buf 0 00000000000000000000000000000000000000000000000000000000000000000000000000000000000000000000000000000000000000000000000000000000",
    "bar 0 00000000000000000000000000000000000000000000000000000000000000000000000000000000000000000000000000000000000000000000000000000000",
    "journal destination",
    "resume",
    "arc 0 STOP",
    "arc 0 RUNNING",
    "state final",
    "page 0 00000000000000000000000000000000",
    "page 1 00000102030400000000000000000000",
    "device 0 a accepted 1 done 1 lost 0",
    "buf 0 00000000000000000000000000000000000000000000000000000000000000000000000000000000000000000000000000000000000000000000000000000000",
    "bar 0 00000000000000000000000000000000000000000000000000000000000000000000000000000000000000000000000000000000000000000000000000000000",
    "end",
];

// A report of a machine whose device has two BARs, of 128 and of 64 bytes.
const TWO_BARS: [&str; 12] = [
    "status no-memory",
    "journal source",
    "state joint",
    "page 0 00000000000000000000000000000000",
    "page 1 00000000000000000000000000000000",
    "device 0 a accepted 1 done 1 lost 0",
    "buf 0 00000000000000000000000000000000000000000000000000000000000000000000000000000000000000000000000000000000000000000000000000000000",
    "bar 0 0 0000000000000000000000000000000000000000000000000000000000000000000000000000000000000000000000000000000000000000000000000000000000000000000000000000000000000000000000000000000000000000000000000000000000000000000000000000000000000000000000000000000000000000",
    "bar 0 1 00000000000000000000000000000000000000000000000000000000000000000000000000000000000000000000000000000000000000000000000000000000",
    "pend 0 9 0",
    "pend 0 4 0",
    "end",
];

// Edited reports, one a line: a letter, the line that is edited, the first bad line of what comes of it (0 where it is a
// report), and a text. That line is replaced by the text (r), left out (d), doubled (t) or exchanged with the next (s).
const TABLE: &str = "r 1 0 status moved
r 1 0 status bad-words
r 1 0 status bad-description not-json
r 1 0 status bad-description too-long
r 1 0 status bad-description missing session
r 1 0 status bad-description missing devices.0.name
r 1 0 status bad-description kind devices.0.queue
r 1 0 status bad-description range devices.0.jobs.0.at
r 1 0 status bad-description not-yet channels
r 1 0 status bad-description name-twice devices.0
r 1 0 status bad-description crosses devices.0.jobs.0
r 1 0 status bad-description own-bar devices.0.jobs.0
r 1 0 status bad-description bell-kind devices.0.jobs.0
r 1 0 status bad-description needs-p2p devices.0
r 1 0 status read-fault
r 1 0 status link-fault connect
r 1 0 status link-fault source 4294967295
r 1 0 status link-fault destination 0
r 1 0 status link-fault control
r 1 0 status refused 25 2 65536
r 1 0 status refused 4294967295 18446744073709551615 18446744073709551615
r 1 0 status unconfirmed e3b0c44298fc1c149afbf4c8996fb92427ae41e4649b934ca495991b7852b855 e3b0c44298fc1c149afbf4c8996fb92427ae41e4649b934ca495991b7852b855
r 1 0 status in-doubt send
r 1 0 status in-doubt read
r 1 0 status in-doubt no-go -
r 1 0 status in-doubt no-go 56
r 1 0 status in-doubt no-go abababababababababababababababababababababababababababababababababababababababababababab
r 1 0 status in-doubt other e3b0c44298fc1c149afbf4c8996fb92427ae41e4649b934ca495991b7852b855 e3b0c44298fc1c149afbf4c8996fb92427ae41e4649b934ca495991b7852b855
r 1 0 status differs
r 1 0 status aborted 3
r 1 0 status aborted 4294967295
r 1 0 status arc-failed 0 STOP_COPY
r 1 0 status no-control -
r 1 0 status no-control 56464d
r 1 0 status no-memory
r 1 1 status legal 15
r 1 1 status broken 0 1
r 1 1 status bad-report 31
r 1 1 status state-differs joint
r 1 1 status state-differs final
r 1 1 status sent
r 1 1 status took
r 1 1 status bad-hello
r 1 1 status bad-vectors kind
r 1 1 status irq-differs
r 1 1 status 
r 1 1 status moved 
r 1 1 status  moved
r 1 1 status Moved
r 1 1 status moved moved
r 1 1 status bad-description
r 1 1 status bad-description missing
r 1 1 status bad-description not-json session
r 1 1 status bad-description missing at
r 1 1 status bad-description missing devices.1.name
r 1 1 status bad-description missing devices.0.at
r 1 1 status bad-description missing devices.0.jobs.1.at
r 1 1 status bad-description missing devices.0.jobs.0.name
r 1 1 status bad-description missing devices.00.name
r 1 1 status bad-description kind bars
r 1 1 status bad-description name-twice devices.1
r 1 1 status bad-description needs-p2p devices.0.name
r 1 1 status bad-description crosses devices.0
r 1 1 status link-fault source
r 1 1 status link-fault source 4294967296
r 1 1 status link-fault control 1
r 1 1 status refused 1 2
r 1 1 status refused 4294967296 0 0
r 1 1 status refused 1 18446744073709551616 0
r 1 1 status unconfirmed e3b0c44298fc1c149afbf4c8996fb92427ae41e4649b934ca495991b7852b855 e3b0c44298fc1c149afbf4c8996fb92427ae41e4649b934ca495991b7852b85
r 1 1 status unconfirmed e3b0c44298fc1c149afbf4c8996fb92427ae41e4649b934ca495991b7852b855 E3B0C44298FC1C149AFBF4C8996FB92427AE41E4649B934CA495991B7852B855
r 1 1 status in-doubt no-go
r 1 1 status in-doubt no-go 5
r 1 1 status in-doubt no-go ababababababababababababababababababababababababababababababababababababababababababababab
r 1 1 status in-doubt send -
r 1 1 status aborted
r 1 1 status aborted 03
r 1 1 status aborted 4294967296
r 1 1 status arc-failed 1 STOP
r 1 1 status arc-failed 0 Stop
r 1 1 status no-control
r 1 1 status no-control AB
r 1 1 status
r 1 1 Status moved
d 1 1 
d 2 2 
d 3 0 
d 14 0 
d 15 15 
d 16 16 
d 17 17 
d 18 18 
d 19 19 
d 20 20 
d 21 21 
d 22 0 
d 25 25 
d 26 26 
d 28 28 
d 30 30 
d 31 31 
t 1 2 
t 2 3 
t 3 0 
t 15 16 
t 16 17 
t 17 18 
t 18 19 
t 19 20 
t 20 21 
t 21 22 
t 24 0 
t 25 26 
t 30 31 
t 31 32 
s 1 1 
s 2 2 
s 3 0 
s 14 15 
s 15 15 
s 16 16 
s 17 17 
s 18 18 
s 19 19 
s 20 20 
s 24 25 
s 30 30 
r 2 2 journal destination
r 2 2 journal  source
r 2 2 journal source 
r 3 0 issue 0 4294967295
r 3 3 issue 0 4294967296
r 3 3 issue 1 0
r 3 3 issue 0 00
r 3 3 issue 00 0
r 3 3 Issue 0 0
r 3 3 issue 0
r 3 3 
r 9 0 arc 0 RUNNING_P2P
r 9 9 arc 0 STOPCOPY
r 11 0 pass 4294967295
r 11 0 pass 0
r 11 11 pass 01
r 12 0 copy 1
r 12 12 copy 2
r 14 14 block 0 1
r 15 0 state loaded
r 15 21 state final
r 15 15 state
r 15 15 state Joint
r 16 16 page 0 0000000000000000000000000000000
r 16 16 page 0 0000000000000000000000000000000000
r 16 16 page 00 00000000000000000000000000000000
r 16 16 page 1 00000000000000000000000000000000
r 16 16 page 0
r 17 0 page 1 0000010203040000000000000000000a
r 17 17 page 1 0000010203040000000000000000000A
r 17 17 page 1 0000010203040000000000000000000g
r 18 0 device 0 a accepted 4294967295 done 0 lost 7
r 18 18 device 0 a accepted 4294967296 done 1 lost 0
r 18 18 device 0 b accepted 1 done 1 lost 0
r 18 18 device 0 a done 1 accepted 1 lost 0
r 18 18 device 0 a accepted 1 done 1 lost 00
r 18 18 device 1 a accepted 1 done 1 lost 0
r 18 18 device 0 a accepted 1 done 1 lost 0 
r 19 19 buf 1 00000000000000000000000000000000000000000000000000000000000000000000000000000000000000000000000000000000000000000000000000000000
r 19 19 buf 0 000000000000000000000000000000000000000000000000000000000000000000000000000000000000000000000000000000000000000000000000000000
r 20 20 bar 0 0 00000000000000000000000000000000000000000000000000000000000000000000000000000000000000000000000000000000000000000000000000000000
r 20 20 bar 0 000000000000000000000000000000000000000000000000000000000000000000000000000000000000000000000000000000000000000000000000000000FF
r 21 21 journal source
r 21 22 pend 0 7 0
r 21 21 pend 0 7 1
r 21 21 pend 1 7 0
r 25 25 state loaded
r 25 25 state joint
r 31 31 End
r 31 31 end 
r 31 32 pend 0 4294967295 0
r 31 31 pend 0 4294967296 0";

// One device with BARs of these sizes and with one write of four bytes.
fn small_desc(alloc: Global, sizes: &[u32]) -> Result<Desc, Fail>
    requires { IsTrue (are_bar_sizes sizes.now) }
    ensures { IfOk result IsValid }
{
    let bytes = Bytes64::of(&[1, 2, 3, 4]).ok_or("bytes")?;
    let jobs = vec![in alloc; Job::Write { at: 18, bytes }]?;
    let queue = vec![in alloc; 0]?;
    let shape = DevShape {
        name: Name::of(b"a").ok_or("name")?,
        flags: Flags::of(1).ok_or("flags")?,
        bars: Bars::of(sizes).ok_or("bars")?,
        window: 1,
        tells: true,
        budget: 1,
        fails: 0,
        jobs: Jobs::of(jobs),
        queue: Queue::of(queue),
    };
    let shapes = vec![in alloc; shape]?;
    let desc = Desc {
        session: 7,
        page: 16,
        pages: 2,
        channels: 1,
        version: 1,
        begin: 99,
        rounds: 0,
        threshold: 0,
        devices: Shapes::of(shapes),
    };
    Ok(Desc::new(desc)?)
}

// Puts a line after a text.
fn add_line(text: &mut Vec<u8>, line: &str) -> Result<(), Fail> {
    text.extend_from_slice(line.as_bytes())?;
    text.push(10)?;
    Ok(())
}

// An edit: its letter, the line, and the text.
#[derive(Drop)]
struct Edit<'a> {
    letter: &'a str,
    at: usize,
    text: &'a str,
}

// No edit.
const NONE: Edit<'static> = Edit {
    letter: "r",
    at: 0,
    text: "",
};

// A line of the table: the edit, and the first bad line.
fn case_of(case: &str) -> Result<(Edit<'_>, u64), Fail> {
    let (letter, rest) = case.split_once(' ').ok_or("letter")?;
    let (at, rest) = rest.split_once(' ').ok_or("place")?;
    let (bad, text) = rest.split_once(' ').ok_or("line")?;
    let at = at.parse::<usize>().map_err(|_| "place")?;
    let bad = bad.parse::<u64>().map_err(|_| "line")?;
    Ok((Edit { letter, at, text }, bad))
}

// The report after an edit.
fn edited(alloc: Global, edit: &Edit) -> Result<Vec<u8>, Fail> {
    let mut text = Vec::new(alloc);
    for i in 0..LINES.len() {
        if i + 1 == edit.at {
            add_edited(&mut text, edit, LINES[i])?;
        } else {
            add_line(&mut text, LINES[i])?;
            if i > 0 && i == edit.at && edit.letter == "s" {
                add_line(&mut text, LINES[i - 1])?;
            }
        }
    }
    Ok(text)
}

// Puts the edited line after a text.
fn add_edited(text: &mut Vec<u8>, edit: &Edit, line: &str) -> Result<(), Fail> {
    if edit.letter == "r" {
        add_line(text, edit.text)?;
    }
    if edit.letter == "t" {
        add_line(text, line)?;
        add_line(text, line)?;
    }
    Ok(())
}

// The first bad line, or 0.
fn bad_line(alloc: Global, desc: &Desc, text: &[u8]) -> Result<u64, Fail>
    requires { IsValid desc.now }
{
    match read_report(alloc, desc, text) {
        Ok(_) => Ok(0),
        Err(TextFault::BadLine { line }) => Ok(line),
        Err(TextFault::NoMemory) => Err("out of memory".into()),
    }
}

#[test]
fn edited_reports_have_their_bad_lines(rt: HostRuntime) -> Result<(), Fail> {
    let alloc = rt.alloc();
    let desc = small_desc(alloc, &[64])?;
    let mut count = 0u32;
    for case in TABLE.lines() {
        let (edit, line) = case_of(case)?;
        let text = edited(alloc, &edit)?;
        assert_eq!(rt; bad_line(alloc, &desc, &text)?, line);
        count = count.wrapping_add(1);
    }
    assert_eq!(rt; count, 179);
    Ok(())
}

#[test]
fn cut_reports_have_their_bad_lines(rt: HostRuntime) -> Result<(), Fail> {
    let alloc = rt.alloc();
    let desc = small_desc(alloc, &[64])?;
    let mut text = edited(alloc, &NONE)?;
    assert_eq!(rt; bad_line(alloc, &desc, &text)?, 0);
    text.push(10)?;
    assert_eq!(rt; bad_line(alloc, &desc, &text)?, 32);
    text.pop();
    text.pop();
    assert_eq!(rt; bad_line(alloc, &desc, &text)?, 31);
    assert_eq!(rt; bad_line(alloc, &desc, b"")?, 1);
    assert_eq!(rt; bad_line(alloc, &desc, b"\n")?, 1);
    assert_eq!(rt; bad_line(alloc, &desc, b"status moved")?, 1);
    assert_eq!(rt; bad_line(alloc, &desc, b"status moved\n")?, 2);
    assert_eq!(rt;
        bad_line(alloc, &desc, b"status moved\njournal source\nend")?,
        3
    );
    assert_eq!(rt;
        bad_line(alloc, &desc, b"status moved\njournal source\nend\n")?,
        0
    );
    assert_eq!(rt;
        bad_line(alloc, &desc, b"status moved\r\njournal source\nend\n")?,
        1
    );
    Ok(())
}

#[test]
fn a_report_has_its_parts(rt: HostRuntime) -> Result<(), Fail> {
    let alloc = rt.alloc();
    let desc = small_desc(alloc, &[64])?;
    let text = edited(alloc, &NONE)?;
    let report = read_report(alloc, &desc, &text)?;
    assert_eq!(rt; report.source.len(), 12);
    assert_eq!(rt; report.dest.ok_or("destination")?.len(), 3);
    assert!(rt; report.loaded.is_none());
    let last = report.last.ok_or("final")?;
    assert_eq!(rt; last.pages().len(), 2);
    assert_eq!(rt; last.pages()[1].bytes().len(), 16);
    let device = last.devices().first().ok_or("device")?;
    assert_eq!(rt; device.counts().1, 1);
    assert_eq!(rt; device.buf().len(), 64);
    Ok(())
}

#[test]
fn several_bars_are_read(rt: HostRuntime) -> Result<(), Fail> {
    let alloc = rt.alloc();
    let desc = small_desc(alloc, &[128, 64])?;
    let mut text = Vec::new(alloc);
    for line in &TWO_BARS {
        add_line(&mut text, line)?;
    }
    let report = read_report(alloc, &desc, &text)?;
    let joint = report.joint.ok_or("joint")?;
    let device = joint.devices().first().ok_or("device")?;
    assert_eq!(rt; device.bar().len(), 192);
    assert_eq!(rt; device.pending().len(), 2);
    Ok(())
}

#[test]
fn lines_of_entries_are_read(rt: HostRuntime) {
    let d = DeviceId(7);
    let table = [
        (b"issue 7 0".as_slice(), Entry::Issue { d, n: 0 }),
        (b"deliver 7 10".as_slice(), Entry::Deliver { d, n: 10 }),
        (
            b"complete 7 4294967295".as_slice(),
            Entry::Complete { d, n: u32::MAX },
        ),
        (
            b"hold 7 RUNNING_P2P".as_slice(),
            Entry::Hold {
                d,
                to: MigState::RunningP2p,
            },
        ),
        (
            b"arc 255 STOP_COPY".as_slice(),
            Entry::Arc {
                d: DeviceId(255),
                to: MigState::StopCopy,
            },
        ),
        (
            b"fail 0 PRE_COPY".as_slice(),
            Entry::Fail {
                d: DeviceId(0),
                to: MigState::PreCopy,
            },
        ),
        (b"report 7".as_slice(), Entry::Report { d }),
        (b"pass 1".as_slice(), Entry::Pass { k: 1 }),
        (b"copy 1023".as_slice(), Entry::Copy { p: 1023 }),
        (b"block 7 64".as_slice(), Entry::Block { d, b: 64 }),
        (b"dry 7".as_slice(), Entry::Dry { d }),
        (b"begin".as_slice(), Entry::Begin),
        (b"joint".as_slice(), Entry::Joint),
        (b"abort".as_slice(), Entry::Abort),
        (b"resume".as_slice(), Entry::Resume),
    ];
    for (line, entry) in &table {
        assert!(rt; read_entry(line) == Some(*entry));
    }
}

#[test]
fn other_lines_are_none(rt: HostRuntime) {
    let table = [
        b"".as_slice(),
        b" ".as_slice(),
        b"issue".as_slice(),
        b"issue 7".as_slice(),
        b"issue 7 ".as_slice(),
        b"issue 7 0 ".as_slice(),
        b"issue  7 0".as_slice(),
        b" issue 7 0".as_slice(),
        b"issue 7 0 0".as_slice(),
        b"issue 07 0".as_slice(),
        b"issue 7 00".as_slice(),
        b"issue +7 0".as_slice(),
        b"issue 7 -0".as_slice(),
        b"issue 256 0".as_slice(),
        b"issue 7 4294967296".as_slice(),
        b"issue 7 18446744073709551616".as_slice(),
        b"issue 7 0\n".as_slice(),
        b"Issue 7 0".as_slice(),
        b"issue\t7 0".as_slice(),
        b"issue 7 \xd9\xa1".as_slice(),
        b"issue 7 \xff".as_slice(),
        b"hold 7 Running".as_slice(),
        b"hold 7 RUNNING_P2P ".as_slice(),
        b"hold 7 2".as_slice(),
        b"arc RUNNING 7".as_slice(),
        b"begin 0".as_slice(),
        b"begin ".as_slice(),
        b"pass one".as_slice(),
        b"end".as_slice(),
        b"resumed".as_slice(),
        b"status moved".as_slice(),
    ];
    for line in &table {
        assert!(rt; read_entry(line).is_none());
    }
}
