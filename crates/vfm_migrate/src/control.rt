//! The control links of a move: the destination's answer is said and heard, and both machines are compared.

ghost use Rattle.std.specs.Prelude.{◌≡◌, IfOk, List, None, Ok};
ghost use Rattle.vfm_types.specs.declared.desc.Desc.{Desc as Described};
ghost use Rattle.vfm_outside.specs.Carried.{told_by};
ghost use Rattle.vfm_dest.specs.Stages.{core_of};
ghost use Rattle.vfm_outside.specs.Links.{IsNew, Told, ToldEnds};
ghost use Rattle.vfm_source.specs.declared.phase.Phase.TheVariants as phases;
ghost use Rattle.vfm_streams.specs.Verdict.{Loads, Refuses};
ghost use Rattle.vfm_move.specs.Causes.{Attempt};
ghost use Rattle.vfm_move.specs.Move.{IsDecided};
ghost use Rattle.vfm_move.specs.Table.{WentOn, owner_at};
ghost use Rattle.vfm_migrate.specs.Answers.{AnswersOrFails, AwaitsAnswer, Compares, IsAsBefore, StagedAs, ends_of, status_of_offer, status_of_settle, with_source};
ghost use Rattle.vfm_migrate.specs.Brought.{StagedFor};
ghost use Rattle.vfm_migrate.specs.Carrying.{ComesTo, IsStepOf, machine_of_staged};
ghost use Rattle.vfm_migrate.specs.Offered.{IsOffered, made_so_far};

use crate::step::Step;
use vfm_dest::{StageFault, Staged};
use vfm_handshake::SettleFault;
use vfm_outside::Link;
use vfm_source::{Mover, OfferFault};
use vfm_status::Status;
use vfm_types::{Desc, LinkFault, LinkPlace, Refusal};

/// The status where an offer failed.
pub(crate) fn offer_status(fault: OfferFault) -> Status
    ensures { result ≡ status_of_offer fault }
{
    match fault {
        OfferFault::Link { channel } => Status::LinkFault(LinkPlace::Source(channel)),
        OfferFault::Aborted { pass } => Status::Aborted { pass },
        OfferFault::ArcFailed { d, to } => Status::ArcFailed { d, to },
        OfferFault::NoMemory => Status::NoMemory,
    }
}

// The status where the source didn't hear its own digest.
fn settle_status(fault: SettleFault) -> Status
    ensures { result ≡ status_of_settle fault }
{
    match fault {
        SettleFault::Link => Status::LinkFault(LinkPlace::Control),
        SettleFault::Refused(refusal) => Status::Refused(refusal),
        SettleFault::Unconfirmed { ours, theirs } => Status::Unconfirmed { ours, theirs },
        SettleFault::NoControl(heard) => Status::NoControl(heard),
    }
}

/// Says the refusal of a destination that staged nothing, though the source has failed.
pub(crate) fn refuse<L: Link>(desc: &Desc, staged: &Result<Staged, StageFault>, dest: &mut L)
    ensures received { L.received dest.new ≡ L.received dest.old }
    ensures ended { L.ended dest.new ≡ L.ended dest.old }
{
    if staged.is_err() {
        match vfm_dest::answer(dest, desc.session, staged) {
            Ok(()) | Err(_) => (),
        }
    }
}

// The status of a move whose destination refused: the source hears so, or another thing.
fn hear_refusal<L: Link>(
    mover: &mut Mover,
    why: Refusal,
    answered: Result<(), LinkFault>,
    source: &mut L,
) -> Status
    requires offered { mover.old.phase ≡ phases.Offered }
    ensures decided { (attempt : Attempt) (ends : ToldEnds)
        → ends.source_control ≡ told_by L.ended L.failed_out L.failed_in L.sent L.received source.old
        → AwaitsAnswer attempt mover.old.core mover.old.digest ends
        → AnswersOrFails mover.old.core.desc (Refuses why) ends answered
        → IsDecided attempt result (made_so_far mover.old.core None)
        (with_source (told_by L.ended L.failed_out L.failed_in L.sent L.received source.new) ends) }
    ensures goes_on { owner_at result ≡ WentOn }
    ensures source { IsAsBefore mover.old mover.new }
{
    if answered.is_err() {
        return Status::LinkFault(LinkPlace::Control);
    }
    match mover.settle(source) {
        Ok(()) => Status::Refused(why),
        Err(fault) => settle_status(fault),
    }
}

// Compares the machines of both ends.
fn compare(mover: &Mover, staged: Staged) -> Step
    ensures { Compares mover.now.core staged result }
{
    if mover.core().same(staged.core()) {
        Step::Confirmed(staged)
    } else {
        Step::Decided {
            status: Status::Differs,
            loaded: Some(staged),
        }
    }
}

// Where a move stands whose destination staged a machine: the source hears so, and both machines are compared; or it
// hears another thing.
fn hear_staged<L: Link>(
    mover: &mut Mover,
    staged: Staged,
    answered: Result<(), LinkFault>,
    source: &mut L,
) -> Step
    requires offered { mover.old.phase ≡ phases.Offered }
    ensures step { (attempt : Attempt) (ends : ToldEnds)
        → ends.source_control ≡ told_by L.ended L.failed_out L.failed_in L.sent L.received source.old
        → AwaitsAnswer attempt mover.old.core mover.old.digest ends
        → AnswersOrFails mover.old.core.desc (Loads (machine_of_staged staged)) ends answered
        → StagedAs mover.old.core.desc staged
        → ComesTo attempt mover.old.core mover.old.digest
        (with_source (told_by L.ended L.failed_out L.failed_in L.sent L.received source.new) ends) result }
    ensures source { IsAsBefore mover.old mover.new }
    ensures kind { (D : Described) → (core_of staged).desc ≡ D → IsStepOf D mover.new.phase result }
{
    if answered.is_err() {
        return Step::Decided {
            status: Status::LinkFault(LinkPlace::Control),
            loaded: None,
        };
    }
    match mover.settle(source) {
        Ok(()) => compare(mover, staged),
        Err(fault) => Step::Decided {
            status: settle_status(fault),
            loaded: None,
        },
    }
}

/// Says the destination's answer, and hears it at the source.
pub(crate) fn answer<L: Link>(
    desc: &Desc,
    mover: &mut Mover,
    staged: Result<Staged, StageFault>,
    source: &mut L,
    dest: &mut L,
) -> Step
    requires offered { mover.old.phase ≡ phases.Offered }
    requires desc { mover.old.core.desc ≡ desc.now }
    requires source { IsNew (told_by L.ended L.failed_out L.failed_in L.sent L.received source.old) }
    requires dest { IsNew (told_by L.ended L.failed_out L.failed_in L.sent L.received dest.old) }
    ensures step { (attempt : Attempt) (from to : List Told)
        → IsOffered attempt.abort_after mover.old.core from (Ok mover.old.digest) → StagedFor desc.now to staged
        → ComesTo attempt mover.old.core mover.old.digest
        (ends_of from to (told_by L.ended L.failed_out L.failed_in L.sent L.received source.new)
        (told_by L.ended L.failed_out L.failed_in L.sent L.received dest.new)) result }
    ensures mover { IsAsBefore mover.old mover.new }
    ensures kind { (D : Described) → IfOk staged (λ staged. (core_of staged).desc ≡ D)
        → IsStepOf D mover.new.phase result }
{
    let answered = vfm_dest::answer(dest, desc.session, &staged);
    match staged {
        Ok(staged) => hear_staged(mover, staged, answered, source),
        Err(StageFault::Refusal(why)) => Step::Decided {
            status: hear_refusal(mover, why, answered, source),
            loaded: None,
        },
        Err(StageFault::Link { channel }) => Step::Decided {
            status: Status::LinkFault(LinkPlace::Destination(channel)),
            loaded: None,
        },
        Err(StageFault::NoMemory) => Step::Decided {
            status: Status::NoMemory,
            loaded: None,
        },
    }
}
