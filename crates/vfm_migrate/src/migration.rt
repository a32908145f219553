//! The call that migrates a machine.

ghost use Rattle.std.specs.Prelude.{◌≡◌, [], IfOk};
ghost use Rattle.vfm_types.specs.Valid.{IsValid};
ghost use Rattle.vfm_outside.specs.Links.{AreNew};
ghost use Rattle.vfm_outside.specs.Tells.{WiresTell, wires_tell};
ghost use Rattle.vfm_core.specs.CoreState.{first_core};
ghost use Rattle.vfm_source.specs.declared.phase.Phase.TheVariants as phases;
ghost use Rattle.vfm_source.specs.Source.{Moves};
ghost use Rattle.vfm_migrate.specs.Concluding.{HasConnected};
ghost use Rattle.vfm_migrate.specs.Links.{tells};
ghost use Rattle.vfm_migrate.specs.Migrations.{IsMigrated, attempt_of};
ghost use Rattle.vfm_migrate.specs.Outcomes.{AreSides, IsAlone, IsFirst};
ghost use Rattle.vfm_migrate.specs.Outcomes as outcomes;

use crate::Step;
use crate::carrying::carry;
use crate::concluding::{commit_over, go_home};
use std::alloc::Global;
use std::thread::Threads;
use vfm_core::Core;
use vfm_dest::Staged;
use vfm_outside::{Beat, ConnectFault, Ends, Wires};
use vfm_source::Mover;
use vfm_status::{Doubt, Status};
use vfm_types::{Desc, LinkPlace, NoMemory};

/// What a migration came to, and what was made at both ends.
#[derive(Drop)]
pub struct Migration {
    /// How it ended.
    pub status: Status,
    /// The source. None only where memory ran out before it stood.
    pub source: Option<Mover>,
    /// The machine that the destination loaded, where it isn't the one at the joint stop.
    pub loaded: Option<Staged>,
    /// The destination's core, where it took the machine over.
    pub taken_over: Option<Core>,
}

/// Migrates a machine over wires from a source to a destination, both here.
///
/// The source runs the machine and its move, sends it over the channels, and says Go once the destination has staged the same
/// machine; then the destination takes it over and runs it to its end. Where anything fails before Go, or pass `abort_after`
/// has ended (0 is never), the source gives up and runs the machine to its end itself. Where Go was begun and the destination
/// didn't take over, neither runs on. `wires` are asked for links once at most, and get them back. Memory is taken before Go
/// alone: from there on, and to give up, none is. The destination's workers, which `beat` is told of, work beside one
/// another.
pub fn migrate<H: Threads + Sync, W: Wires, B: Beat + Sync>(
    rt: &H,
    alloc: Global,
    desc: Desc,
    wires: &mut W,
    abort_after: u32,
    beat: &B,
) -> Migration
    requires { IsValid desc }
    ensures { IsMigrated (attempt_of abort_after (wires_tell (W.asked wires.old) (W.carried wires.old) (W.faults wires.old))
        (wires_tell (W.asked wires.new) (W.carried wires.new) (W.faults wires.new))) desc result }
{
    match sides(alloc, desc) {
        Ok((mover, desc)) => move_between(rt, alloc, mover, &desc, wires, abort_after, beat),
        Err(_) => Migration {
            status: Status::NoMemory,
            source: None,
            loaded: None,
            taken_over: None,
        },
    }
}

/// The source, and the description for the destination.
fn sides(alloc: Global, desc: Desc) -> Result<(Mover, Desc), NoMemory>
    requires { IsValid desc }
    ensures { IfOk result (λ sides. AreSides desc sides.0 sides.1) }
{
    let copy = desc.copy()?;
    let mover = Mover::of(alloc, desc)?;
    Ok((mover, copy))
}

/// Asks for links, and moves the machine over them.
fn move_between<H: Threads + Sync, W: Wires, B: Beat + Sync>(
    rt: &H,
    alloc: Global,
    mover: Mover,
    desc: &Desc,
    wires: &mut W,
    abort_after: u32,
    beat: &B,
) -> Migration
    requires valid { IsValid desc.now }
    requires first { IsFirst desc.now mover }
    ensures { IsMigrated (attempt_of abort_after (wires_tell (W.asked wires.old) (W.carried wires.old) (W.faults wires.old))
        (wires_tell (W.asked wires.new) (W.carried wires.new) (W.faults wires.new))) desc.now result }
{
    match wires.connect(desc.channels) {
        Ok(ends) => move_over(rt, alloc, mover, desc, wires, ends, abort_after, beat),
        Err(ConnectFault::Failed) => alone(mover, Status::LinkFault(LinkPlace::Connect)),
        Err(ConnectFault::NoMemory) => alone(mover, Status::NoMemory),
    }
}

/// A source without links gives up.
fn alone(mut mover: Mover, status: Status) -> Migration
    requires fresh { mover.phase ≡ phases.Fresh }
    requires begins { Moves [] mover }
    requires nothing { mover.core.entries ≡ [] }
    ensures { IsAlone mover status result }
{
    go_home(&mut mover);
    Migration {
        status,
        source: Some(mover),
        loaded: None,
        taken_over: None,
    }
}

/// Moves the machine over these links, and takes them in again.
fn move_over<H: Threads + Sync, W: Wires, B: Beat + Sync>(
    rt: &H,
    alloc: Global,
    mut mover: Mover,
    desc: &Desc,
    wires: &mut W,
    ends: Ends<W::L>,
    abort_after: u32,
    beat: &B,
) -> Migration
    requires valid { IsValid desc.now }
    requires first { IsFirst desc.now mover }
    requires new { AreNew desc.now.channels (tells W.L.ended W.L.failed_out W.L.failed_in W.L.sent W.L.received ends) }
    ensures { (before : WiresTell)
        → HasConnected desc.now.channels before (wires_tell (W.asked wires.old) (W.carried wires.old) (W.faults wires.old))
        → IsMigrated (attempt_of abort_after before (wires_tell (W.asked wires.new) (W.carried wires.new) (W.faults wires.new))) desc.now result }
{
    let (ends, step) = carry(rt, alloc, desc, &mut mover, ends, abort_after, beat);
    match step {
        Step::Decided { status, loaded } => {
            go_home(&mut mover);
            wires.back(ends);
            Migration {
                status,
                source: Some(mover),
                loaded,
                taken_over: None,
            }
        }
        Step::Confirmed(staged) => {
            let (ends, answer) = commit_over(&mut mover, staged, ends);
            wires.back(ends);
            concluded(mover, answer)
        }
    }
}

/// What a migration came to once Go was said.
fn concluded(mover: Mover, answer: Result<Core, Doubt>) -> Migration
    ensures { result ≡ outcomes.concluded mover answer }
{
    match answer {
        Ok(core) => Migration {
            status: Status::Moved,
            source: Some(mover),
            loaded: None,
            taken_over: Some(core),
        },
        Err(doubt) => Migration {
            status: Status::InDoubt(doubt),
            source: Some(mover),
            loaded: None,
            taken_over: None,
        },
    }
}
