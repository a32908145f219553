//! How a migration is concluded: the source gives up, or the destination takes over.

ghost use Rattle.std.specs.Prelude.{◌≡◌, ◌≢◌, IsFalse, length};
ghost use Rattle.vfm_order.specs.LookAfter.{is_over};
ghost use Rattle.vfm_source.specs.declared.phase.Phase.TheVariants as phases;
ghost use Rattle.vfm_source.specs.Moving.{past_in};
ghost use Rattle.vfm_source.specs.Source.{Moves};
ghost use Rattle.vfm_move.specs.Causes.{Attempt};
ghost use Rattle.vfm_migrate.specs.Carrying.{IsReadyForGo};
ghost use Rattle.vfm_migrate.specs.Committing.{Commits};
ghost use Rattle.vfm_migrate.specs.Concluding.{IsGoneHome};
ghost use Rattle.vfm_migrate.specs.Links.{tells};

use crate::committing::commit;
use vfm_core::Core;
use vfm_dest::Staged;
use vfm_outside::{Ends, Link};
use vfm_source::Mover;
use vfm_status::Doubt;

/// Gives up, and runs the source until every device is `RUNNING` and idle. Takes no memory.
pub(crate) fn go_home(mover: &mut Mover)
    requires before_go { mover.old.phase ≢ phases.Gone }
    requires once { mover.old.phase ≢ phases.GivenUp }
    requires moves { Moves (past_in mover.old.core) mover.old }
    requires going { IsFalse (is_over (past_in mover.old.core)) }
    ensures { IsGoneHome mover.old mover.new }
{
    mover.give_up();
    mover.core().desc();
}

/// Says Go over these links, and takes the machine over once that was heard. Takes no memory.
pub(crate) fn commit_over<L: Link>(
    mover: &mut Mover,
    staged: Staged,
    ends: Ends<L>,
) -> (Ends<L>, Result<Core, Doubt>)
    requires settled { mover.old.phase ≡ phases.Settled }
    ensures commits { (attempt : Attempt)
        → IsReadyForGo attempt mover.old.core mover.old.digest staged (tells L.ended L.failed_out L.failed_in L.sent L.received ends)
        → Commits attempt mover.old.core (tells L.ended L.failed_out L.failed_in L.sent L.received result.0) result.1 }
    ensures mover { mover.new ≡ record mover.old { phase = phases.Gone } }
    ensures source { length result.0.source.items ≡ length ends.source.items }
    ensures dest { length result.0.dest.items ≡ length ends.dest.items }
{
    let Ends {
        mut source_control,
        source,
        mut dest_control,
        dest,
    } = ends;
    let answer = commit(mover, staged, &mut source_control, &mut dest_control);
    let ends = Ends {
        source_control,
        source,
        dest_control,
        dest,
    };
    (ends, answer)
}
