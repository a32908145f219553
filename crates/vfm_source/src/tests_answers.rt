//! The answers that a source hears to what it offered, and what it says then. The frames are written from the format by hand.

ghost use Rattle.std.specs.Prelude.{◌≡◌, IfOk};
ghost use Rattle.vfm_source.specs.declared.phase.Phase.TheVariants as phases;

use crate::tests::{STATE, WRITTEN, offer, written};
use crate::{Mover, Phase};
use std::alloc::Global;
use std::process::Abort;
use std::test::Fail;
use vfm_handshake::SettleFault;
use vfm_outside::ScriptLink;
use vfm_types::MigState;

// The letters of Staged and of Go, and the eight bytes of session 7.
const STAGED: [u8; 12] = [0x56, 0x46, 0x4d, 0x53, 0, 0, 0, 0, 0, 0, 0, 7];

const GO: [u8; 12] = [0x56, 0x46, 0x4d, 0x47, 0, 0, 0, 0, 0, 0, 0, 7];

// A control link that brings a Staged frame with this digest, 20 bytes at once, so in its calls 0 to 2; and whose call 3
// fails, if it is to.
fn control_link(alloc: Global, digest: &[u8; 32], fails: bool) -> Result<ScriptLink, Fail> {
    let mut inbox = STAGED.to_vec(alloc)?;
    inbox.extend_from_slice(digest)?;
    let mut failing = Vec::new(alloc);
    if fails {
        failing.push(3)?;
    }
    Ok(ScriptLink::of(alloc, inbox, 44, failing, 20)?)
}

// A source that has offered the written machine.
fn offering(rt: &impl Abort, alloc: Global) -> Result<Mover, Fail>
    ensures { IfOk result (λ mover. mover.phase ≡ phases.Offered) }
{
    let mut mover = written(rt, alloc, WRITTEN)?;
    offer(&mut mover, alloc, 0, None, 0)?;
    match mover.phase() {
        Phase::Offered => Ok(mover),
        _ => Err(Fail::from("nothing was offered")),
    }
}

#[test]
fn a_source_says_go_for_what_it_offered(rt: HostRuntime) -> Result<(), Fail> {
    let alloc = rt.alloc();
    let mut mover = offering(&rt, alloc)?;
    let mut control = control_link(alloc, &STATE, false)?;
    assert!(rt; mover.settle(&mut control).is_ok());
    assert_eq!(rt; mover.phase(), Phase::Settled);
    assert_eq!(rt; control.received().len(), 44);
    assert!(rt; mover.go(&mut control).is_ok());
    assert_eq!(rt; mover.phase(), Phase::Gone);
    let sent = control.sent();
    assert_eq!(rt; sent.len(), 44);
    assert!(rt; &sent[..12] == GO.as_slice() && &sent[12..] == STATE.as_slice());
    assert!(rt; control.has_finished());
    Ok(())
}

#[test]
fn go_fails_with_its_link(rt: HostRuntime) -> Result<(), Fail> {
    let alloc = rt.alloc();
    let mut mover = offering(&rt, alloc)?;
    let mut control = control_link(alloc, &STATE, true)?;
    assert!(rt; mover.settle(&mut control).is_ok());
    assert_eq!(rt; mover.phase(), Phase::Settled);
    assert!(rt; mover.go(&mut control).is_err());
    assert_eq!(rt; mover.phase(), Phase::Gone);
    assert!(rt; control.sent().is_empty());
    assert!(rt; !control.has_finished());
    Ok(())
}

#[test]
fn another_digest_is_not_settled(rt: HostRuntime) -> Result<(), Fail> {
    let alloc = rt.alloc();
    let mut mover = offering(&rt, alloc)?;
    let mut staged = STATE;
    staged[31] = 0xc7;
    let mut control = control_link(alloc, &staged, false)?;
    match mover.settle(&mut control) {
        Err(SettleFault::Unconfirmed { ours, theirs }) => {
            assert_eq!(rt; ours, STATE);
            assert_eq!(rt; theirs, staged);
        }
        _ => return Err(Fail::from("another answer")),
    }
    assert_eq!(rt; mover.phase(), Phase::Failed);
    mover.give_up();
    assert!(rt; mover.core().look().devices[0].state == MigState::Running);
    Ok(())
}
