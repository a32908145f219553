//! What the destination says of what it staged.

ghost use Rattle.std.specs.Prelude.{◌≡◌, ◌||◌, ◌&&◌, Some, is_ok, is_err, OnOk, OnErr};
ghost use Rattle.vfm_control.specs.declared.ends.DestEnd.TheVariants as dest;
ghost use Rattle.vfm_control.specs.Calls.{LeadsTo};
ghost use Rattle.vfm_control.specs.Frame.{frame_bytes};
ghost use Rattle.vfm_control.specs.Pair.{PairState};
ghost use Rattle.vfm_outside.specs.Counts.{CountsFaults};
ghost use Rattle.vfm_outside.specs.Told.{with_appended};
ghost use Rattle.vfm_send.specs.Sends.{SentPrefix};
ghost use Rattle.vfm_dest.specs.Saying.{answer_for, end_for, event_for, frame_for, refusal_for};

use crate::{StageFault, Staged};
use vfm_control::Answer;
use vfm_outside::Link;
use vfm_types::{LinkFault, Refusal};

/// The code of the refusal that says that a link failed; with it goes the channel.
const LINK_FAILED: u32 = 12;

/// The code of the refusal that says that memory ran out.
const NO_MEMORY: u32 = 40;

// the refusal that is said for a fault
fn refusal_of(fault: StageFault) -> Refusal
    ensures { result ≡ refusal_for fault }
{
    match fault {
        StageFault::Refusal(refusal) => refusal,
        StageFault::Link { channel } => Refusal {
            code: LINK_FAILED,
            a: u64::from(channel),
            b: 0,
        },
        StageFault::NoMemory => Refusal {
            code: NO_MEMORY,
            a: 0,
            b: 0,
        },
    }
}

// what is said of what was staged
fn answer_of(staged: &Result<Staged, StageFault>) -> Answer
    ensures { result ≡ answer_for staged.now }
{
    match staged {
        Ok(staged) => Answer::Staged(staged.digest()),
        Err(fault) => Answer::Refused(refusal_of(*fault)),
    }
}

/// Says what was staged: the digest, after which Go is waited for; or the refusal, after which nothing more is said. For a
/// link that failed the refusal has code 12 and the channel, for want of memory code 40. At a fault a prefix of the frame was
/// sent, or all of it; the count of what failed to be sent rose. Takes no memory.
///
/// In the machine of both ends it is Stage or Refuse, also where the link fails.
pub fn answer<L: Link>(
    control: &mut L,
    session: u64,
    staged: &Result<Staged, StageFault>,
) -> Result<(), LinkFault>
    ensures sent { OnOk result (L.sent control.new
        ≡ with_appended (L.sent control.old) (frame_bytes (frame_for session staged.now))) }
    ensures prefix { OnErr result (SentPrefix (L.sent control.old) (L.sent control.new)
        (frame_bytes (frame_for session staged.now))) }
    ensures count { CountsFaults result (L.failed_out control.old) (L.failed_out control.new) }
    ensures finished { L.finished control.new ≡ (L.finished control.old || is_ok result && is_err staged.now) }
    ensures failed_in { L.failed_in control.new ≡ L.failed_in control.old }
    ensures received { L.received control.new ≡ L.received control.old }
    ensures ended { L.ended control.new ≡ L.ended control.old }
    ensures pair { (p : PairState) → p.dest ≡ dest.Staging → LeadsTo p (event_for staged.now)
        (record p { dest = end_for staged.now; answer = Some (answer_for staged.now) }) }
{
    vfm_handshake::answer(control, session, &answer_of(staged))
}
