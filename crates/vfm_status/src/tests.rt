//! The lines of the statuses.

use crate::{Doubt, Section, Status, put_status};
use std::alloc::Global;
use std::test::Fail;
use vfm_outside::MemSink;
use vfm_text::{SinkWriter, TextBuffer};
use vfm_types::{DeviceId, Heard44, LinkPlace, MigState, Refusal, Rule};

// A sink with ample room.
fn ample(alloc: Global) -> Result<MemSink, Fail> {
    Ok(MemSink::of(alloc, 4096, Vec::new(alloc), 1000)?)
}

// Whether this status has this line.
fn has_line(alloc: Global, status: &Status, line: &str) -> Result<bool, Fail> {
    let mut out = ample(alloc)?;
    let mut writer = SinkWriter {
        buffer: TextBuffer::new(),
        sink: &mut out,
    };
    put_status(&mut writer, status).or(Err("the status"))?;
    writer.flush().or(Err("the sink"))?;
    Ok(out.bytes() == line.as_bytes())
}

// Whether each of these statuses has its line.
fn have_lines(alloc: Global, rows: &[(Status, &str)]) -> Result<bool, Fail> {
    for (status, line) in rows {
        if !has_line(alloc, status, line)? {
            return Ok(false);
        }
    }
    Ok(true)
}

#[test]
fn statuses_of_links_and_refusals_have_their_lines(rt: HostRuntime) -> Result<(), Fail> {
    let refusal = Refusal {
        code: 24,
        a: 0,
        b: 4096,
    };
    let rows = [
        (
            Status::LinkFault(LinkPlace::Connect),
            "status link-fault connect\n",
        ),
        (
            Status::LinkFault(LinkPlace::Source(3)),
            "status link-fault source 3\n",
        ),
        (
            Status::LinkFault(LinkPlace::Destination(7)),
            "status link-fault destination 7\n",
        ),
        (
            Status::LinkFault(LinkPlace::Control),
            "status link-fault control\n",
        ),
        (Status::Refused(refusal), "status refused 24 0 4096\n"),
    ];
    assert!(rt; have_lines(rt.alloc(), &rows)?);
    Ok(())
}

#[test]
fn statuses_of_the_handshake_have_their_lines(rt: HostRuntime) -> Result<(), Fail> {
    let nothing = Heard44::of(&[]).ok_or("heard")?;
    let heard = Heard44::of(&[86, 70, 17]).ok_or("heard")?;
    let unconfirmed = Status::Unconfirmed {
        ours: [171; 32],
        theirs: [1; 32],
    };
    let other = Doubt::Other {
        ours: [0; 32],
        theirs: [255; 32],
    };
    let rows = [
        (
            unconfirmed,
            "status unconfirmed abababababababababababababababababababababababababababababababab 0101010101010101010101010101010101010101010101010101010101010101\n",
        ),
        (Status::InDoubt(Doubt::Send), "status in-doubt send\n"),
        (Status::InDoubt(Doubt::Read), "status in-doubt read\n"),
        (
            Status::InDoubt(Doubt::NoGo(nothing)),
            "status in-doubt no-go -\n",
        ),
        (
            Status::InDoubt(other),
            "status in-doubt other 0000000000000000000000000000000000000000000000000000000000000000 ffffffffffffffffffffffffffffffffffffffffffffffffffffffffffffffff\n",
        ),
        (Status::NoControl(heard), "status no-control 564611\n"),
    ];
    assert!(rt; have_lines(rt.alloc(), &rows)?);
    Ok(())
}

#[test]
fn statuses_of_runs_and_audits_have_their_lines(rt: HostRuntime) -> Result<(), Fail> {
    let failed = Status::ArcFailed {
        d: DeviceId(1),
        to: MigState::StopCopy,
    };
    let broken = Status::Broken {
        place: 12,
        rule: Rule::Quiet,
    };
    let rows = [
        (Status::Differs, "status differs\n"),
        (Status::Aborted { pass: 2 }, "status aborted 2\n"),
        (failed, "status arc-failed 1 STOP_COPY\n"),
        (broken, "status broken 12 4\n"),
        (Status::BadReport { line: 9 }, "status bad-report 9\n"),
        (
            Status::StateDiffers(Section::Joint),
            "status state-differs joint\n",
        ),
        (
            Status::StateDiffers(Section::Last),
            "status state-differs final\n",
        ),
    ];
    assert!(rt; have_lines(rt.alloc(), &rows)?);
    Ok(())
}
