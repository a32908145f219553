//! A move over its links: the source offers, the destination stages and answers, and the source hears that.

ghost use Rattle.std.specs.Prelude.{◌≡◌, ◌≢◌, IfOk, IsFalse, IsOk, List, length};
ghost use Rattle.vfm_types.specs.declared.desc.Desc.{Desc as Described};
ghost use Rattle.vfm_types.specs.Valid.{IsValid};
ghost use Rattle.vfm_dest.specs.Stages.{core_of};
ghost use Rattle.vfm_outside.specs.Links.{AreNew, IsNew, Told};
ghost use Rattle.vfm_order.specs.LookAfter.{is_over};
ghost use Rattle.vfm_outside.specs.Carried.{told_by};
ghost use Rattle.vfm_source.specs.declared.phase.Phase.TheVariants as phases;
ghost use Rattle.vfm_source.specs.Moving.{past_in};
ghost use Rattle.vfm_source.specs.Source.{Moves};
ghost use Rattle.vfm_move.specs.Causes.{Attempt};
ghost use Rattle.vfm_migrate.specs.Answers.{IsAsBefore, ends_of};
ghost use Rattle.vfm_migrate.specs.Brought.{StagedFor};
ghost use Rattle.vfm_migrate.specs.Carrying.{ComesTo, IsStepOf};
ghost use Rattle.vfm_migrate.specs.Links.{tells};
ghost use Rattle.vfm_migrate.specs.Offered.{IsOffered};

use crate::channels::{offer, stage};
use crate::control::{answer, offer_status, refuse};
use crate::step::Step;
use std::alloc::Global;
use std::thread::Threads;
use vfm_dest::{StageFault, Staged};
use vfm_outside::{Beat, Ends, Link};
use vfm_source::{Mover, OfferFault};
use vfm_types::Desc;

// Says and hears the destination's answer where the source offered all of its machine; else only a refusal is said.
fn shake<L: Link>(
    desc: &Desc,
    mover: &mut Mover,
    offered: Result<[u8; 32], OfferFault>,
    staged: Result<Staged, StageFault>,
    source: &mut L,
    dest: &mut L,
) -> Step
    requires offered { IsOk offered → mover.old.phase ≡ phases.Offered }
    requires digest { IfOk offered (λ digest. mover.old.digest ≡ digest) }
    requires not_gone { mover.old.phase ≢ phases.Gone }
    requires not_given_up { mover.old.phase ≢ phases.GivenUp }
    requires desc { mover.old.core.desc ≡ desc.now }
    requires source { IsNew (told_by L.ended L.failed_out L.failed_in L.sent L.received source.old) }
    requires dest { IsNew (told_by L.ended L.failed_out L.failed_in L.sent L.received dest.old) }
    ensures step { (attempt : Attempt) (from to : List Told)
        → IsOffered attempt.abort_after mover.old.core from offered → StagedFor desc.now to staged
        → ComesTo attempt mover.old.core mover.old.digest
        (ends_of from to (told_by L.ended L.failed_out L.failed_in L.sent L.received source.new)
        (told_by L.ended L.failed_out L.failed_in L.sent L.received dest.new)) result }
    ensures mover { IsAsBefore mover.old mover.new }
    ensures kind { (D : Described) → IfOk staged (λ staged. (core_of staged).desc ≡ D)
        → IsStepOf D mover.new.phase result }
{
    match offered {
        Ok(_) => answer(desc, mover, staged, source, dest),
        Err(fault) => {
            refuse(desc, &staged, dest);
            Step::Decided {
                status: offer_status(fault),
                loaded: None,
            }
        }
    }
}

/// Offers the machine, stages what came, answers, hears the answer, and compares both machines. The links come back in
/// their order.
pub(crate) fn carry<H: Threads + Sync, L: Link, B: Beat + Sync>(
    rt: &H,
    alloc: Global,
    desc: &Desc,
    mover: &mut Mover,
    ends: Ends<L>,
    abort_after: u32,
    beat: &B,
) -> (Ends<L>, Step)
    requires fresh { mover.old.phase ≡ phases.Fresh }
    requires same { mover.old.core.desc ≡ desc.now }
    requires valid { IsValid desc.now }
    requires new { AreNew desc.now.channels (tells L.ended L.failed_out L.failed_in L.sent L.received ends) }
    ensures comes_to { (attempt : Attempt) → attempt.abort_after ≡ abort_after
        → ComesTo attempt mover.new.core mover.new.digest
        (tells L.ended L.failed_out L.failed_in L.sent L.received result.0) result.1 }
    ensures moves { Moves (past_in mover.new.core) mover.new }
    ensures going { IsFalse (is_over (past_in mover.new.core)) }
    ensures desc { mover.new.core.desc ≡ desc.now }
    ensures source { length result.0.source.items ≡ desc.now.channels }
    ensures dest { length result.0.dest.items ≡ desc.now.channels }
    ensures step { IsStepOf desc.now mover.new.phase result.1 }
{
    let Ends {
        mut source_control,
        source,
        mut dest_control,
        dest,
    } = ends;
    let (source, offered) = offer(alloc, mover, source, abort_after);
    let (dest, staged) = stage(rt, alloc, desc, dest, beat);
    let step = shake(
        desc,
        mover,
        offered,
        staged,
        &mut source_control,
        &mut dest_control,
    );
    let ends = Ends {
        source_control,
        source,
        dest_control,
        dest,
    };
    (ends, step)
}
