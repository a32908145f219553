//! What no clause says: that the calls succeed, and the printed text of a small machine.

ghost use Rattle.std.specs.Prelude.{IfOk, IsTrue, ◌<◌};
ghost use Rattle.vfm_types.specs.Desc.{device_count};
ghost use Rattle.vfm_types.specs.Ranges.{are_bar_sizes};
ghost use Rattle.vfm_types.specs.Valid.{IsValid};

use crate::{
    ReportParts, SinkWriter, TextBuffer, put_parts, state_digest, write_journal, write_state,
};
use std::alloc::Global;
use std::test::Fail;
use vfm_journal::Journal;
use vfm_outside::{Failed, MemSink};
use vfm_plain::Plain;
use vfm_types::{
    Bars, Bytes64, Desc, DevShape, DeviceId, Entry, Flags, Job, Jobs, MigState, Name, Queue, Shapes,
};

const STATE: [&str; 6] = [
    "page 0 00000000000000000000000000000000",
    "page 1 00000000000000000000000000000000",
    "device 0 a accepted 1 done 0 lost 0",
    "buf 0 00000000000000000000000000000000000000000000000000000000000000000000000000000000000000000000000000000000000000000000000000000000",
    "bar 0 00000000000000000000000000000000000000000000000000000000000000000000000000000000000000000000000000000000000000000000000000000000",
    "pend 0 0 0",
];

// The lines of the BARs where there are two, of 128 and of 64 bytes.
const TWO_BARS: [&str; 2] = [
    "bar 0 0 0000000000000000000000000000000000000000000000000000000000000000000000000000000000000000000000000000000000000000000000000000000000000000000000000000000000000000000000000000000000000000000000000000000000000000000000000000000000000000000000000000000000000000",
    "bar 0 1 00000000000000000000000000000000000000000000000000000000000000000000000000000000000000000000000000000000000000000000000000000000",
];

const JOURNAL: [&str; 5] = [
    "begin",
    "hold 0 STOP",
    "arc 0 STOP_COPY",
    "pass 1",
    "block 0 10",
];

// One device with BARs of these sizes and with one write of four bytes, which is pending.
fn small_desc(alloc: Global, sizes: &[u32]) -> Result<Desc, Fail>
    requires { IsTrue (are_bar_sizes sizes.now) }
    ensures valid { IfOk result IsValid }
    ensures few { IfOk result (λ desc. device_count desc < 256) }
{
    let bytes = Bytes64::of(&[1, 2, 3, 4]).ok_or("bytes")?;
    let jobs = vec![in alloc; Job::Write { at: 18, bytes }]?;
    let queue = vec![in alloc; 0]?;
    let shape = DevShape {
        name: Name::of(b"a").ok_or("name")?,
        flags: Flags::of(1).ok_or("flags")?,
        bars: Bars::of(sizes).ok_or("bars")?,
        window: 1,
        tells: true,
        budget: 1,
        fails: 0,
        jobs: Jobs::of(jobs),
        queue: Queue::of(queue),
    };
    let shapes = vec![in alloc; shape]?;
    let desc = Desc {
        session: 7,
        page: 16,
        pages: 2,
        channels: 1,
        version: 1,
        begin: 99,
        rounds: 0,
        threshold: 0,
        devices: Shapes::of(shapes),
    };
    Ok(Desc::new(desc)?)
}

// A journal with one entry of each form.
fn small_journal(alloc: Global) -> Result<Journal, Fail> {
    let d = DeviceId(0);
    let mut journal = Journal::with_room(alloc, 5)?;
    journal.push(Entry::Begin);
    journal.push(Entry::Hold {
        d,
        to: MigState::Stop,
    });
    journal.push(Entry::Arc {
        d,
        to: MigState::StopCopy,
    });
    journal.push(Entry::Pass { k: 1 });
    journal.push(Entry::Block { d, b: 10 });
    Ok(journal)
}

// A sink with ample room.
fn ample(alloc: Global) -> Result<MemSink, Fail> {
    Ok(MemSink::of(alloc, 4096, Vec::new(alloc), 1000)?)
}

// Puts lines after a text.
fn add_lines(text: &mut Vec<u8>, lines: &[&str]) -> Result<(), Fail> {
    for line in lines {
        text.extend_from_slice(line.as_bytes())?;
        text.push(10)?;
    }
    Ok(())
}

#[test]
fn a_journal_has_a_line_for_each_entry(rt: HostRuntime) -> Result<(), Fail> {
    let alloc = rt.alloc();
    let mut text = Vec::new(alloc);
    add_lines(&mut text, &JOURNAL)?;
    let mut sink = ample(alloc)?;
    assert_eq!(rt; write_journal(&small_journal(alloc)?, &mut sink), Ok(()));
    assert_eq!(rt; sink.bytes(), text.as_slice());
    Ok(())
}

#[test]
fn a_machine_has_its_lines_and_its_digest(rt: HostRuntime) -> Result<(), Fail> {
    let alloc = rt.alloc();
    let desc = small_desc(alloc, &[64])?;
    let plain = Plain::of(alloc, &desc)?;
    let mut text = Vec::new(alloc);
    add_lines(&mut text, &STATE)?;
    let mut sink = ample(alloc)?;
    assert_eq!(rt; write_state(&plain, &desc, &mut sink), Ok(()));
    assert_eq!(rt; sink.bytes(), text.as_slice());
    // the SHA-256 of these lines by another program
    let digest = hex::encode(alloc, &state_digest(&plain, &desc))?;
    assert_eq!(rt;
        digest.as_str(),
        "ee528461f14059870860cd60470d2c431c7fcb80b24b358d8af6cf14b0eaea5c"
    );
    Ok(())
}

#[test]
fn each_of_several_bars_has_a_line(rt: HostRuntime) -> Result<(), Fail> {
    let alloc = rt.alloc();
    let desc = small_desc(alloc, &[128, 64])?;
    let plain = Plain::of(alloc, &desc)?;
    let mut text = Vec::new(alloc);
    add_lines(&mut text, &STATE[..4])?;
    add_lines(&mut text, &TWO_BARS)?;
    add_lines(&mut text, &STATE[5..])?;
    let mut sink = ample(alloc)?;
    assert_eq!(rt; write_state(&plain, &desc, &mut sink), Ok(()));
    assert_eq!(rt; sink.bytes(), text.as_slice());
    Ok(())
}

#[test]
fn a_report_has_its_parts_in_order(rt: HostRuntime) -> Result<(), Fail> {
    let alloc = rt.alloc();
    let desc = small_desc(alloc, &[64])?;
    let plain = Plain::of(alloc, &desc)?;
    let journal = small_journal(alloc)?;
    let mut text = Vec::new(alloc);
    add_lines(&mut text, &["journal source"])?;
    add_lines(&mut text, &JOURNAL)?;
    add_lines(&mut text, &["state joint"])?;
    add_lines(&mut text, &STATE)?;
    add_lines(&mut text, &["state loaded"])?;
    add_lines(&mut text, &STATE)?;
    add_lines(&mut text, &["journal destination"])?;
    add_lines(&mut text, &JOURNAL)?;
    add_lines(&mut text, &["state final"])?;
    add_lines(&mut text, &STATE)?;
    add_lines(&mut text, &["end"])?;
    let mut sink = ample(alloc)?;
    let machine = Some(&plain);
    let destination = Some(&journal);
    let parts = ReportParts {
        desc: &desc,
        source: &journal,
        joint: machine,
        loaded: machine,
        destination,
        final_state: machine,
    };
    let mut writer = SinkWriter {
        buffer: TextBuffer::new(),
        sink: &mut sink,
    };
    let answer = put_parts(&mut writer, &parts).and(writer.flush());
    let ReportParts {
        desc: _,
        source: _,
        joint: _,
        loaded: _,
        destination: _,
        final_state: _,
    } = parts;
    assert_eq!(rt; answer, Ok(()));
    assert_eq!(rt; sink.bytes(), text.as_slice());
    Ok(())
}

#[test]
fn a_sink_that_fails_has_a_prefix_of_the_text(rt: HostRuntime) -> Result<(), Fail> {
    let alloc = rt.alloc();
    let mut sink = MemSink::of(alloc, 4096, [2u32].to_vec(alloc)?, 16)?;
    assert_eq!(rt;
        write_journal(&small_journal(alloc)?, &mut sink),
        Err(Failed)
    );
    assert_eq!(rt;
        sink.bytes(),
        b"begin\nhold 0 STOP\narc 0 STOP_COP".as_slice()
    );
    Ok(())
}
