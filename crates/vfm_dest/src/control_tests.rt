//! What a destination says on the control link, and what it does with Go. The frames are written from the format by hand.

use super::*;
use crate::worked::{DIGEST, channel, described, link, staged};
use std::alloc::Global;
use std::test::Fail;
use std::thread::Threads;
use vfm_handshake::GoFault;
use vfm_outside::ScriptLink;
use vfm_types::{DeviceId, Entry, MigState, Refusal};

// the letters of Staged, Refused and Go, and the eight bytes of session 7
static STAGED: [u8; 12] = [0x56, 0x46, 0x4d, 0x53, 0, 0, 0, 0, 0, 0, 0, 7];

static REFUSED: [u8; 12] = [0x56, 0x46, 0x4d, 0x52, 0, 0, 0, 0, 0, 0, 0, 7];

static GO: [u8; 12] = [0x56, 0x46, 0x4d, 0x47, 0, 0, 0, 0, 0, 0, 0, 7];

// The worked machine, staged.
fn worked<H: Threads + Sync>(rt: &H, alloc: Global) -> Result<Staged, Fail> {
    let desc = described(alloc, 1, 1)?;
    let links = vec![in alloc; link(alloc, channel(alloc, 1)?, &[])?]?;
    match staged(rt, alloc, &desc, links, 4)? {
        Ok(staged) => Ok(staged),
        Err(_) => Err(Fail::from("nothing was staged")),
    }
}

// These letters and this body, cut after so many bytes.
fn frame(alloc: Global, letters: &[u8], body: &[u8], most: usize) -> Result<Vec<u8>, Fail> {
    let mut bytes = letters.to_vec(alloc)?;
    bytes.extend_from_slice(body)?;
    bytes.truncate(most);
    Ok(bytes)
}

#[test]
fn a_staged_machine_is_answered_with_its_digest(rt: HostRuntime) -> Result<(), Fail> {
    let alloc = rt.alloc();
    let mut near = link(alloc, Vec::new(alloc), &[])?;
    assert!(rt; answer(&mut near, 7, &Ok(worked(&rt, alloc)?)).is_ok());
    assert_eq!(rt; near.sent(), &*frame(alloc, &STAGED, &DIGEST, 44)?);
    assert!(rt; !near.has_finished());
    Ok(())
}

// Whether this body is said for a fault, and then the end.
fn says(alloc: Global, fault: StageFault, body: &[u8; 32]) -> Result<bool, Fail> {
    let mut near = link(alloc, Vec::new(alloc), &[])?;
    if answer(&mut near, 7, &Err(fault)).is_err() {
        return Ok(false);
    }
    let whole = frame(alloc, &REFUSED, body, 44)?;
    Ok(near.has_finished() && near.sent() == whole.as_slice())
}

#[test]
fn a_fault_is_answered_with_its_refusal(rt: HostRuntime) -> Result<(), Fail> {
    let alloc = rt.alloc();
    let mut body = [0; 32];
    body[3] = 24;
    let missing = Refusal {
        code: 24,
        a: 0,
        b: 0,
    };
    assert!(rt; says(alloc, StageFault::Refusal(missing), &body)?);
    body[3] = 12;
    body[11] = 3;
    assert!(rt; says(alloc, StageFault::Link { channel: 3 }, &body)?);
    body[3] = 40;
    body[11] = 0;
    assert!(rt; says(alloc, StageFault::NoMemory, &body)?);
    Ok(())
}

#[test]
fn an_answer_may_fail(rt: HostRuntime) -> Result<(), Fail> {
    let alloc = rt.alloc();
    let mut near = link(alloc, Vec::new(alloc), &[0])?;
    assert!(rt; answer(&mut near, 7, &Err(StageFault::NoMemory)).is_err());
    assert_eq!(rt; near.sent().len(), 0);
    assert_eq!(rt; near.faults(), 1);
    Ok(())
}

#[test]
fn a_machine_runs_once_go_came(rt: HostRuntime) -> Result<(), Fail> {
    let alloc = rt.alloc();
    let mut go = link(alloc, frame(alloc, &GO, &DIGEST, 44)?, &[])?;
    let core = match finish(worked(&rt, alloc)?, &mut go) {
        Ok(core) => core,
        Err(_) => return Err(Fail::from("no machine")),
    };
    let d = DeviceId(0);
    let journal = [
        Entry::Resume,
        Entry::Arc {
            d,
            to: MigState::Stop,
        },
        Entry::Arc {
            d,
            to: MigState::Running,
        },
    ];
    assert_eq!(rt; core.journal().as_slice(), journal.as_slice());
    assert_eq!(rt; go.received().len(), 44);
    Ok(())
}

// How many bytes came in place of Go; none where it is another fault.
fn heard_in(fault: &GoFault) -> Option<u32> {
    match fault {
        GoFault::NoGo(heard) => Some(heard.len()),
        _ => None,
    }
}

// The fault in place of a machine.
fn unfinished(staged: Staged, control: &mut ScriptLink) -> Result<GoFault, Fail> {
    let fault = finish(staged, control).err();
    Ok(fault.ok_or("a machine runs")?)
}

#[test]
fn a_machine_does_not_run_without_go(rt: HostRuntime) -> Result<(), Fail> {
    let alloc = rt.alloc();
    for (most, bytes) in [(0, 0), (1, 1), (43, 43)] {
        let mut cut = link(alloc, frame(alloc, &GO, &DIGEST, most)?, &[])?;
        assert_eq!(rt;
            heard_in(&unfinished(worked(&rt, alloc)?, &mut cut)?),
            Some(bytes)
        );
        assert!(rt; cut.has_ended());
    }
    // its own answer in place of Go
    let mut echo = link(alloc, frame(alloc, &STAGED, &DIGEST, 44)?, &[])?;
    assert_eq!(rt;
        heard_in(&unfinished(worked(&rt, alloc)?, &mut echo)?),
        Some(44)
    );
    Ok(())
}

#[test]
fn a_machine_does_not_run_on_another_go(rt: HostRuntime) -> Result<(), Fail> {
    let alloc = rt.alloc();
    let mut digest = DIGEST;
    digest[31] = 0;
    let mut other = link(alloc, frame(alloc, &GO, &digest, 44)?, &[])?;
    match unfinished(worked(&rt, alloc)?, &mut other)? {
        GoFault::Other { ours, theirs } => {
            assert_eq!(rt; ours, DIGEST);
            assert_eq!(rt; theirs, digest);
        }
        _ => return Err(Fail::from("another digest")),
    }
    let mut failing = link(alloc, frame(alloc, &GO, &DIGEST, 44)?, &[0])?;
    match unfinished(worked(&rt, alloc)?, &mut failing)? {
        GoFault::Link => assert_eq!(rt; failing.faults(), 1),
        _ => return Err(Fail::from("a failing link")),
    }
    Ok(())
}
