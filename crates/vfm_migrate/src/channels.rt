//! The channels of a move: the source offers its machine over them, and the destination stages what came.

ghost use Rattle.std.specs.Prelude.{◌≡◌, All, length, map, if◌then◌else◌, is_ok, IfOk};
ghost use Rattle.vfm_types.specs.Valid.{IsValid};
ghost use Rattle.vfm_outside.specs.Carried.{told_by};
ghost use Rattle.vfm_outside.specs.Links.{IsNew};
ghost use Rattle.vfm_source.specs.declared.phase.Phase.TheVariants as phases;
ghost use Rattle.vfm_source.specs.Moving.{past_in};
ghost use Rattle.vfm_source.specs.Source.{Moves};
ghost use Rattle.vfm_dest.specs.Stages.{core_of};
ghost use Rattle.vfm_migrate.specs.Brought.{StagedFor};
ghost use Rattle.vfm_migrate.specs.Offered.{IsOffered};

use std::alloc::Global;
use std::thread::Threads;
use vfm_dest::{StageFault, Staged};
use vfm_outside::{Beat, Link};
use vfm_source::{Mover, OfferFault};
use vfm_types::Desc;

/// Offers the machine over new links.
pub(crate) fn offer<L: Link>(
    alloc: Global,
    mover: &mut Mover,
    links: Vec<L>,
    abort_after: u32,
) -> (Vec<L>, Result<[u8; 32], OfferFault>)
    requires fresh { mover.old.phase ≡ phases.Fresh }
    requires valid { IsValid mover.old.core.desc }
    requires channels { length links.items ≡ mover.old.core.desc.channels }
    requires new { All IsNew (map (told_by L.ended L.failed_out L.failed_in L.sent L.received) links.items) }
    ensures offered { IsOffered abort_after mover.new.core
        (map (told_by L.ended L.failed_out L.failed_in L.sent L.received) result.0.items) result.1 }
    ensures moves { Moves (past_in mover.new.core) mover.new }
    ensures desc { mover.new.core.desc ≡ mover.old.core.desc }
    ensures digest { IfOk result.1 (λ digest. mover.new.digest ≡ digest) }
    ensures phase { mover.new.phase ≡ (if is_ok result.1 then phases.Offered else phases.Failed) }
{
    let offered = mover.offer(alloc, links, abort_after);
    mover.core().desc();
    offered
}

/// Stages the machine that came over new links.
pub(crate) fn stage<H: Threads + Sync, L: Link, B: Beat + Sync>(
    rt: &H,
    alloc: Global,
    desc: &Desc,
    links: Vec<L>,
    beat: &B,
) -> (Vec<L>, Result<Staged, StageFault>)
    requires valid { IsValid desc.now }
    requires channels { length links.items ≡ desc.now.channels }
    requires new { All IsNew (map (told_by L.ended L.failed_out L.failed_in L.sent L.received) links.items) }
    ensures staged { StagedFor desc.now
        (map (told_by L.ended L.failed_out L.failed_in L.sent L.received) result.0.items) result.1 }
    ensures links { length result.0.items ≡ length links.items }
    ensures desc { IfOk result.1 (λ staged. (core_of staged).desc ≡ desc.now) }
{
    vfm_dest::stage(rt, alloc, desc, links, beat)
}
