//! Go: the source says it, and the destination takes the machine over once it heard it.

ghost use Rattle.std.specs.Prelude.{◌≡◌, IfOk, List};
ghost use Rattle.vfm_types.specs.declared.entry.Entry.{Entry as Item};
ghost use Rattle.vfm_outside.specs.Carried.{told_by};
ghost use Rattle.vfm_outside.specs.Links.{ToldEnds};
ghost use Rattle.vfm_control.specs.declared.frame.Frame.TheVariants.{Go};
ghost use Rattle.vfm_control.specs.Frame.{frame_bytes};
ghost use Rattle.vfm_dest.specs.Finishing.{without_value};
ghost use Rattle.vfm_dest.specs.StagedCores.{EndsFor};
ghost use Rattle.vfm_dest.specs.Stages.{core_of, digest_of};
ghost use Rattle.vfm_source.specs.declared.phase.Phase.TheVariants as phases;
ghost use Rattle.vfm_move.specs.Causes.{Attempt};
ghost use Rattle.vfm_migrate.specs.Answers as answers;
ghost use Rattle.vfm_migrate.specs.Carrying.{IsReadyForGo};
ghost use Rattle.vfm_migrate.specs.Committing.{Commits, HearsGo, IsTakenOver, SaysGo, with_controls};

use vfm_core::Core;
use vfm_dest::{Staged, finish};
use vfm_handshake::GoFault;
use vfm_outside::Link;
use vfm_source::Mover;
use vfm_status::Doubt;
use vfm_types::LinkFault;

/// The doubt where the destination didn't hear Go for its own digest.
fn doubt_of(fault: GoFault) -> Doubt
    ensures { result ≡ answers.doubt_of fault }
{
    match fault {
        GoFault::Link => Doubt::Read,
        GoFault::NoGo(heard) => Doubt::NoGo(heard),
        GoFault::Other { ours, theirs } => Doubt::Other { ours, theirs },
    }
}

/// Says Go.
fn say<L: Link>(mover: &mut Mover, control: &mut L) -> Result<(), LinkFault>
    requires settled { mover.old.phase ≡ phases.Settled }
    ensures says { SaysGo (frame_bytes (Go mover.old.core.desc.session mover.old.digest))
        (told_by L.ended L.failed_out L.failed_in L.sent L.received control.old)
        (told_by L.ended L.failed_out L.failed_in L.sent L.received control.new) result }
    ensures mover { mover.new ≡ record mover.old { phase = phases.Gone } }
{
    mover.go(control)
}

/// Hears Go, and takes the staged machine over.
fn hear<L: Link>(staged: Staged, control: &mut L) -> Result<Core, GoFault>
    ensures hears { HearsGo (core_of staged).desc.session (digest_of staged)
        (told_by L.ended L.failed_out L.failed_in L.sent L.received control.old)
        (told_by L.ended L.failed_out L.failed_in L.sent L.received control.new) (without_value result) }
    ensures taken { (past : List Item) → EndsFor (core_of staged) past → IfOk result (IsTakenOver (core_of staged).desc past) }
{
    staged.core();
    finish(staged, control)
}

/// Says Go, and takes the machine over at the destination once that was heard. Takes no memory.
pub(crate) fn commit<L: Link>(
    mover: &mut Mover,
    staged: Staged,
    source: &mut L,
    dest: &mut L,
) -> Result<Core, Doubt>
    requires settled { mover.old.phase ≡ phases.Settled }
    ensures commits { (attempt : Attempt) (ends : ToldEnds)
        → IsReadyForGo attempt mover.old.core mover.old.digest staged (with_controls
        (told_by L.ended L.failed_out L.failed_in L.sent L.received source.old)
        (told_by L.ended L.failed_out L.failed_in L.sent L.received dest.old) ends)
        → Commits attempt mover.old.core (with_controls
        (told_by L.ended L.failed_out L.failed_in L.sent L.received source.new)
        (told_by L.ended L.failed_out L.failed_in L.sent L.received dest.new) ends) result }
    ensures mover { mover.new ≡ record mover.old { phase = phases.Gone } }
{
    match say(mover, source) {
        Ok(()) => match hear(staged, dest) {
            Ok(core) => Ok(core),
            Err(fault) => Err(doubt_of(fault)),
        },
        Err(_) => Err(Doubt::Send),
    }
}
