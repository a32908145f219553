//! Frames over links in memory, cut, changed and failing. The frames are written from the format by hand.

use super::*;
use std::alloc::Global;
use std::test::Fail;
use vfm_control::Answer;
use vfm_outside::ScriptLink;
use vfm_types::Refusal;

// the letters of Staged, Refused and Go, and the eight bytes of session 7
static STAGED: [u8; 12] = [0x56, 0x46, 0x4d, 0x53, 0, 0, 0, 0, 0, 0, 0, 7];

static REFUSED: [u8; 12] = [0x56, 0x46, 0x4d, 0x52, 0, 0, 0, 0, 0, 0, 0, 7];

static GO: [u8; 12] = [0x56, 0x46, 0x4d, 0x47, 0, 0, 0, 0, 0, 0, 0, 7];

// code 13, numbers 0 and 690, and twelve zeros
static TOO_SHORT: [u8; 32] = [
    0, 0, 0, 13, 0, 0, 0, 0, 0, 0, 0, 0, 0, 0, 0, 0, 0, 0, 2, 178, 0, 0, 0, 0, 0, 0, 0, 0, 0, 0, 0,
    0,
];

const OURS: [u8; 32] = [170; 32];

const THEIRS: [u8; 32] = [
    170, 170, 170, 170, 170, 170, 170, 170, 170, 170, 170, 170, 170, 170, 170, 170, 170, 170, 170,
    170, 170, 170, 170, 170, 170, 170, 170, 170, 170, 170, 170, 171,
];

// these letters and this body, cut after so many bytes
fn frame(alloc: Global, letters: &[u8], body: &[u8], most: usize) -> Result<Vec<u8>, Fail> {
    let mut bytes = letters.to_vec(alloc)?;
    bytes.extend_from_slice(body)?;
    bytes.truncate(most);
    Ok(bytes)
}

// a link that brings these bytes in pieces of so many (one at least), and fails at these calls
fn link(alloc: Global, inbox: Vec<u8>, most: u32, fail: &[u32]) -> Result<ScriptLink, Fail> {
    let fail = fail.to_vec(alloc)?;
    let link = ScriptLink::of(alloc, inbox, 100, fail, most.max(1));
    Ok(link.ok().ok_or("no memory")?)
}

#[test]
fn a_source_settles_by_what_it_hears(rt: HostRuntime) -> Result<(), Fail> {
    let alloc = rt.alloc();
    for most in [1, 43, 44, 100] {
        let mut staged = link(alloc, frame(alloc, &STAGED, &OURS, 44)?, most, &[])?;
        assert!(rt; settle(&mut staged, 7, &OURS).is_ok());
        assert_eq!(rt; staged.received().len(), 44);
        assert!(rt; !staged.has_ended());
        let mut other = link(alloc, frame(alloc, &STAGED, &THEIRS, 44)?, most, &[])?;
        match settle(&mut other, 7, &OURS) {
            Err(SettleFault::Unconfirmed { ours, theirs }) => {
                assert_eq!(rt; ours, OURS);
                assert_eq!(rt; theirs, THEIRS);
            }
            _ => return Err(Fail::from("another digest")),
        }
        let mut refused = link(alloc, frame(alloc, &REFUSED, &TOO_SHORT, 44)?, most, &[])?;
        match settle(&mut refused, 7, &OURS) {
            Err(SettleFault::Refused(Refusal { code, a, b })) => {
                assert_eq!(rt; (code, a, b), (13, 0, 690));
            }
            _ => return Err(Fail::from("a refusal")),
        }
    }
    Ok(())
}

// how many bytes stand in the answer that no control frame came; none where the answer is another
fn heard_of(answer: Result<(), SettleFault>) -> Option<u32> {
    match answer {
        Err(SettleFault::NoControl(heard)) => Some(heard.len()),
        _ => None,
    }
}

#[test]
fn a_source_hears_no_answer(rt: HostRuntime) -> Result<(), Fail> {
    let alloc = rt.alloc();
    for (most, heard) in [(0, 0), (1, 1), (43, 43)] {
        let mut cut = link(alloc, frame(alloc, &STAGED, &OURS, most)?, 100, &[])?;
        assert_eq!(rt; heard_of(settle(&mut cut, 7, &OURS)), Some(heard));
        assert!(rt; cut.has_ended());
    }
    let mut session = link(alloc, frame(alloc, &STAGED, &OURS, 44)?, 100, &[])?;
    assert_eq!(rt; heard_of(settle(&mut session, 8, &OURS)), Some(44));
    let mut go = link(alloc, frame(alloc, &GO, &OURS, 44)?, 100, &[])?;
    assert_eq!(rt; heard_of(settle(&mut go, 7, &OURS)), Some(44));
    let mut failing = link(alloc, frame(alloc, &STAGED, &OURS, 44)?, 20, &[2])?;
    match settle(&mut failing, 7, &OURS) {
        Err(SettleFault::Link) => assert_eq!(rt; failing.faults(), 1),
        _ => return Err(Fail::from("a failing link")),
    }
    Ok(())
}

#[test]
fn a_destination_hears_go(rt: HostRuntime) -> Result<(), Fail> {
    let alloc = rt.alloc();
    let mut go = link(alloc, frame(alloc, &GO, &OURS, 44)?, 100, &[])?;
    assert!(rt; hear_go(&mut go, 7, &OURS).is_ok());
    let mut other = link(alloc, frame(alloc, &GO, &THEIRS, 44)?, 7, &[])?;
    match hear_go(&mut other, 7, &OURS) {
        Err(GoFault::Other { ours, theirs }) => {
            assert_eq!(rt; ours, OURS);
            assert_eq!(rt; theirs, THEIRS);
        }
        _ => return Err(Fail::from("another digest")),
    }
    for most in [0, 1, 43] {
        let mut cut = link(alloc, frame(alloc, &GO, &OURS, most)?, 100, &[])?;
        match hear_go(&mut cut, 7, &OURS) {
            Err(GoFault::NoGo(heard)) => assert_eq!(rt; heard.len() as usize, most),
            _ => return Err(Fail::from("a cut frame")),
        }
    }
    let mut staged = link(alloc, frame(alloc, &STAGED, &OURS, 44)?, 100, &[])?;
    match hear_go(&mut staged, 7, &OURS) {
        Err(GoFault::NoGo(heard)) => assert_eq!(rt; heard.len(), 44),
        _ => return Err(Fail::from("an answer in place of Go")),
    }
    Ok(())
}

#[test]
fn both_ends_say_their_frames(rt: HostRuntime) -> Result<(), Fail> {
    let alloc = rt.alloc();
    for most in [5, 100] {
        let mut near = link(alloc, Vec::new(alloc), most, &[])?;
        assert!(rt; say_go(&mut near, 7, &OURS).is_ok());
        assert!(rt; near.has_finished());
        assert_eq!(rt; near.sent(), &*frame(alloc, &GO, &OURS, 44)?);
        let mut staged = link(alloc, Vec::new(alloc), most, &[])?;
        assert!(rt; answer(&mut staged, 7, &Answer::Staged(OURS)).is_ok());
        assert!(rt; !staged.has_finished());
        assert_eq!(rt; staged.sent(), &*frame(alloc, &STAGED, &OURS, 44)?);
        let mut refused = link(alloc, Vec::new(alloc), most, &[])?;
        let refusal = Refusal {
            code: 13,
            a: 0,
            b: 690,
        };
        assert!(rt; answer(&mut refused, 7, &Answer::Refused(refusal)).is_ok());
        assert!(rt; refused.has_finished());
        assert_eq!(rt; refused.sent(), &*frame(alloc, &REFUSED, &TOO_SHORT, 44)?);
    }
    // the second send fails, and finishing
    for (fail, sent) in [(1, 20), (3, 44)] {
        let mut near = link(alloc, Vec::new(alloc), 20, &[fail])?;
        assert!(rt; say_go(&mut near, 7, &OURS).is_err());
        assert_eq!(rt; near.sent().len(), sent);
        assert_eq!(rt; near.faults(), 1);
    }
    Ok(())
}
