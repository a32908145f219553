//! What `run FILE` and `load N` come to: the description read or generated, and its machine migrated.

ghost use Rattle.vfm_outside.specs.Tells.{source_tells, wires_tell};
ghost use Rattle.vfm_top.specs.Call.{Call as Called, read_limit, IsPrefixRead};
ghost use Rattle.vfm_top.specs.Outcome.{HasOutcome, IsCallOver, IsLoadOver, IsPrintable, made_of, move_tells, status_of};

use crate::Status;
use crate::description::read_description;
use std::alloc::Global;
use std::thread::Threads;
use vfm_generate::generate;
use vfm_migrate::{Migration, migrate};
use vfm_outside::{Beat, Source, Wires};

/// What a call that asks for a move came to.
#[derive(Drop)]
pub enum Outcome {
    /// There was no machine to migrate.
    Undescribed(Status),
    /// The machine was migrated, or not.
    Migrated(Migration),
}

/// Reads a description and migrates the machine that it describes; the source is to give up once this pass has ended, with 0
/// never.
pub fn outcome_of_source<H: Threads + Sync, D: Source, W: Wires, B: Beat + Sync>(
    rt: &H,
    alloc: Global,
    desc: &mut D,
    wires: &mut W,
    abort_after: u32,
    beat: &B,
) -> Outcome
    ensures outcome { (call : Called)
        → IsCallOver abort_after (move_tells (source_tells (D.left desc.old) (D.faults desc.old)) (wires_tell (W.asked wires.old) (W.carried wires.old) (W.faults wires.old)))
        (move_tells (source_tells (D.left desc.new) (D.faults desc.new)) (wires_tell (W.asked wires.new) (W.carried wires.new) (W.faults wires.new))) call
        → HasOutcome call (status_of result) (made_of result) }
    ensures printable { IsPrintable result }
    ensures read { IsPrefixRead read_limit (source_tells (D.left desc.old) (D.faults desc.old)) (source_tells (D.left desc.new) (D.faults desc.new)) }
{
    match read_description(alloc, desc) {
        Ok(desc) => Outcome::Migrated(migrate(rt, alloc, desc, wires, abort_after, beat)),
        Err(status) => Outcome::Undescribed(status),
    }
}

/// Generates load `number` and migrates its machine; its source never gives up by itself.
pub fn outcome_of_load<H: Threads + Sync, W: Wires, B: Beat + Sync>(
    rt: &H,
    alloc: Global,
    number: u32,
    wires: &mut W,
    beat: &B,
) -> Outcome
    ensures outcome { (call : Called)
        → IsLoadOver number (wires_tell (W.asked wires.old) (W.carried wires.old) (W.faults wires.old)) (wires_tell (W.asked wires.new) (W.carried wires.new) (W.faults wires.new)) call
        → HasOutcome call (status_of result) (made_of result) }
    ensures printable { IsPrintable result }
{
    match generate(alloc, number) {
        Ok(desc) => Outcome::Migrated(migrate(rt, alloc, desc, wires, 0, beat)),
        Err(_) => Outcome::Undescribed(Status::NoMemory),
    }
}
