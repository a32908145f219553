//! The source's calls: hearing the answer, saying Go.

ghost use Rattle.std.specs.Prelude.{◌≡◌, ◌≢◌, ◌≤◌, ◌||◌, Err, is_ok, OnOk, OnErr};
ghost use Rattle.vfm_control.specs.declared.frame.Frame.TheVariants.{Go};
ghost use Rattle.vfm_control.specs.Frame.{frame_bytes};
ghost use Rattle.vfm_outside.specs.Counts.{CountsFaults, Rose};
ghost use Rattle.vfm_outside.specs.Told.{with_appended};
ghost use Rattle.vfm_send.specs.Sends.{SentPrefix};
ghost use Rattle.vfm_handshake.specs.declared.fault.SettleFault.TheVariants as settling;
ghost use Rattle.vfm_handshake.specs.Control.{SettledBy, Settles};

use crate::fault::SettleFault;
use crate::heard::{HeardBytes, hear};
use crate::said::say_last;
use vfm_control::Frame;
use vfm_outside::Link;
use vfm_types::LinkFault;

/// Hears the destination's answer in this session: `Ok` only for a Staged frame with our own digest. It receives at most 44
/// bytes, and fewer only where the link ends or fails. `Link` comes only where the count of failed receipts rose.
pub fn settle<L: Link>(control: &mut L, session: u64, ours: &[u8; 32]) -> Result<(), SettleFault>
    ensures settles { Settles session ours.now (record {
      before = L.received control.old;
      now = L.received control.new;
      had_ended = L.ended control.old;
      ended = L.ended control.new;
    }) result }
    ensures never_falls { L.failed_in control.old ≤ L.failed_in control.new }
    ensures fault { result ≡ Err settling.Link → Rose (L.failed_in control.old) (L.failed_in control.new) }
    ensures no_fault { result ≢ Err settling.Link → L.failed_in control.new ≡ L.failed_in control.old }
    ensures sent { L.sent control.new ≡ L.sent control.old }
    ensures finished { L.finished control.new ≡ L.finished control.old }
    ensures failed_out { L.failed_out control.new ≡ L.failed_out control.old }
{
    match hear(control) {
        Ok(heard) => settled(&heard, session, ours),
        Err(_) => Err(SettleFault::Link),
    }
}

// what the source answers to what it heard
fn settled(heard: &HeardBytes, session: u64, ours: &[u8; 32]) -> Result<(), SettleFault>
    ensures { SettledBy session ours.now heard.now result }
{
    match heard.frame(session) {
        Some(Frame::Staged { session: _, digest }) => {
            if digest == *ours {
                Ok(())
            } else {
                Err(SettleFault::Unconfirmed {
                    ours: *ours,
                    theirs: digest,
                })
            }
        }
        Some(
            Frame::Refused {
                session: _,
                refusal,
            },
        ) => Err(SettleFault::Refused(refusal)),
        Some(Frame::Go { .. }) => Err(SettleFault::NoControl(heard.kept())),
        None => Err(SettleFault::NoControl(heard.kept())),
    }
}

/// Says Go for the state with this digest, and that nothing more will be said. At a fault a prefix of the frame was sent,
/// or all of it; the count of what failed to be sent rose.
pub fn say_go<L: Link>(control: &mut L, session: u64, digest: &[u8; 32]) -> Result<(), LinkFault>
    ensures sent { OnOk result (L.sent control.new ≡ with_appended (L.sent control.old) (frame_bytes (Go session digest.now))) }
    ensures prefix { OnErr result (SentPrefix (L.sent control.old) (L.sent control.new) (frame_bytes (Go session digest.now))) }
    ensures count { CountsFaults result (L.failed_out control.old) (L.failed_out control.new) }
    ensures finished { L.finished control.new ≡ (L.finished control.old || is_ok result) }
    ensures failed_in { L.failed_in control.new ≡ L.failed_in control.old }
    ensures received { L.received control.new ≡ L.received control.old }
    ensures ended { L.ended control.new ≡ L.ended control.old }
{
    let frame = Frame::Go {
        session,
        digest: *digest,
    };
    say_last(control, &frame)
}
