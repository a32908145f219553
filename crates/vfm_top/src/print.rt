//! Printing what a run ends with.

ghost use Rattle.std.specs.Prelude.{◌≡◌, IfSome, None, option_map};
ghost use Rattle.vfm_core.specs.CoreState.{FitsDesc};
ghost use Rattle.vfm_core.specs.Machines.{machine_in};
ghost use Rattle.vfm_migrate.specs.Migrations.{made_by, made_in};
ghost use Rattle.vfm_migrate.specs.Migrations as migrations;
ghost use Rattle.vfm_move.specs.Table.{owner_at};
ghost use Rattle.vfm_outside.specs.Tells.{sink_tells};
ghost use Rattle.vfm_text.specs.Parts.{CanPrint, made_of};
ghost use Rattle.vfm_text.specs.Prints.{Prints};
ghost use Rattle.vfm_text.specs.Writers.{Writes};
ghost use Rattle.vfm_top.specs.Text.{report, audit_text, path_text, path_status};
ghost use Rattle.vfm_top.specs.Answers.{Ends};
ghost use Rattle.vfm_top.specs.Outcome.{IsOfOneMachine, IsPrintable, IsPrintableMigration, made_of as made_of_outcome, status_of};

use crate::Status;
use crate::audited::Audited;
use crate::line::{put_answer, put_audit};
use crate::outcome::Outcome;
use vfm_core::Core;
use vfm_dest::Staged;
use vfm_journal::Journal;
use vfm_migrate::Migration;
use vfm_outside::{Failed, Sink};
use vfm_plain::Plain;
use vfm_source::Mover;
use vfm_states::Route;
use vfm_status::put_status;
use vfm_text::{MachineView, ReportParts, SinkWriter, TextBuffer, TextWriter, put_parts};
use vfm_types::PathFault;

/// Writes the line of a status, and the parts of its report where it has them.
fn put_report<P: TextWriter, M: MachineView>(
    writer: &mut P,
    status: &Status,
    parts: Option<&ReportParts<'_, M>>,
) -> Result<(), Failed>
    requires { IfSome parts (λ parts. CanPrint M.machine parts.now) }
    ensures { Writes P.takes P.stops writer.old writer.new (report status.now (option_map (λ parts. made_of M.machine parts.now) parts.entry)) result }
{
    put_status(writer, status)?;
    match parts {
        Some(parts) => put_parts(writer, parts),
        None => Ok(()),
    }
}

/// Writes a report to a sink.
fn write_report<S: Sink, M: MachineView>(
    status: &Status,
    parts: Option<&ReportParts<'_, M>>,
    out: &mut S,
) -> Result<(), Failed>
    requires { IfSome parts (λ parts. CanPrint M.machine parts.now) }
    ensures { Prints result (report status.now (option_map (λ parts. made_of M.machine parts.now) parts.entry))
        (sink_tells (S.holds out.old) (S.faults out.old)) (sink_tells (S.holds out.new) (S.faults out.new)) }
{
    let mut writer = SinkWriter {
        buffer: TextBuffer::new(),
        sink: out,
    };
    put_report(&mut writer, status, parts)?;
    writer.flush()
}

/// Writes what `paths` prints to a sink.
fn write_answer<S: Sink>(answer: &Result<Route, PathFault>, out: &mut S) -> Result<(), Failed>
    ensures { Prints result (path_text answer.now) (sink_tells (S.holds out.old) (S.faults out.old)) (sink_tells (S.holds out.new) (S.faults out.new)) }
{
    let mut writer = SinkWriter {
        buffer: TextBuffer::new(),
        sink: out,
    };
    put_answer(&mut writer, answer)?;
    writer.flush()
}

/// Writes what `audit` prints to a sink.
fn write_audit<S: Sink>(status: &Status, entries: u64, out: &mut S) -> Result<(), Failed>
    ensures { Prints result (audit_text status.now entries) (sink_tells (S.holds out.old) (S.faults out.old)) (sink_tells (S.holds out.new) (S.faults out.new)) }
{
    let mut writer = SinkWriter {
        buffer: TextBuffer::new(),
        sink: out,
    };
    put_audit(&mut writer, status, entries)?;
    writer.flush()
}

/// Prints what an audit came to and ends with its status, or with `WriteFault` where the sink failed.
pub fn print_audit<S: Sink>(audited: Audited, out: &mut S) -> Status
    ensures { Ends result audited.status (audit_text audited.status audited.entries)
        (sink_tells (S.holds out.old) (S.faults out.old)) (sink_tells (S.holds out.new) (S.faults out.new)) }
{
    let Audited { status, entries } = audited;
    match write_audit(&status, entries, out) {
        Ok(()) => status,
        Err(_) => Status::WriteFault,
    }
}

/// Prints the report of a status and ends with it, or with `WriteFault` where the sink failed.
pub fn print_report<S: Sink, M: MachineView>(
    status: Status,
    parts: Option<&ReportParts<'_, M>>,
    out: &mut S,
) -> Status
    requires { IfSome parts (λ parts. CanPrint M.machine parts.now) }
    ensures { Ends result status (report status (option_map (λ parts. made_of M.machine parts.now) parts.entry))
        (sink_tells (S.holds out.old) (S.faults out.old)) (sink_tells (S.holds out.new) (S.faults out.new)) }
{
    match write_report(&status, parts, out) {
        Ok(()) => status,
        Err(_) => Status::WriteFault,
    }
}

/// Prints the line of a status that nothing was made at, and ends with it, or with `WriteFault` where the sink failed.
pub fn print_line<S: Sink>(status: Status, out: &mut S) -> Status
    ensures { Ends result status (report status None)
        (sink_tells (S.holds out.old) (S.faults out.old)) (sink_tells (S.holds out.new) (S.faults out.new)) }
{
    print_report::<S, Plain>(status, None, out)
}

/// Prints the path, or why there is none, and ends with the status of that.
pub fn print_path<S: Sink>(answer: Result<Route, PathFault>, out: &mut S) -> Status
    ensures { Ends result (path_status answer) (path_text answer)
        (sink_tells (S.holds out.old) (S.faults out.old)) (sink_tells (S.holds out.new) (S.faults out.new)) }
{
    match write_answer(&answer, out) {
        Ok(()) => match answer {
            Ok(_) => Status::Printed,
            Err(fault) => Status::PathRefused(fault),
        },
        Err(_) => Status::WriteFault,
    }
}

/// The core of the machine that was loaded, if one was.
fn loaded_core(loaded: &Option<Staged>) -> Option<&Core>
    ensures value { option_map (λ core. core.now) result ≡ option_map (λ staged. staged.core) loaded.now }
    ensures fits { IfSome result (λ core. FitsDesc core.now.desc core.now.world) }
{
    match loaded {
        Some(staged) => {
            let core = staged.core();
            core.desc();
            Some(core)
        }
        None => None,
    }
}

/// The destination's journal, if it took the machine over.
fn destination_journal(taken_over: &Option<Core>) -> Option<&Journal>
    ensures { option_map (λ journal. journal.now.entries) result ≡ option_map (λ core. core.entries) taken_over.now }
{
    match taken_over {
        Some(core) => Some(core.journal()),
        None => None,
    }
}

/// A core that is there.
fn there(core: &Option<Core>) -> Option<&Core>
    ensures value { option_map (λ core. core.now) result ≡ core.now }
    ensures fits { IfSome result (λ core. FitsDesc core.now.desc core.now.world) }
{
    match core {
        Some(core) => {
            core.desc();
            Some(core)
        }
        None => None,
    }
}

/// The core that has the machine at the end.
pub fn last_core<'a>(
    status: &Status,
    source: &'a Core,
    taken_over: &'a Option<Core>,
) -> Option<&'a Core>
    ensures value { option_map (λ core. core.now) result ≡ migrations.last_core (owner_at status.now) source.now taken_over.now }
    ensures fits { IfSome result (λ core. FitsDesc core.now.desc core.now.world) }
{
    match status {
        Status::Moved => there(taken_over),
        Status::InDoubt(_) => None,
        _ => {
            source.desc();
            Some(source)
        }
    }
}

/// The parts of the report of a migration that had this source.
fn parts_of<'a>(
    status: &Status,
    source: &'a Mover,
    loaded: &'a Option<Staged>,
    taken_over: &'a Option<Core>,
) -> ReportParts<'a, Core>
    requires { IsOfOneMachine source.now loaded.now taken_over.now }
    ensures made { made_of (λ core. machine_in core.world) result ≡ made_by status.now source.now loaded.now taken_over.now }
    ensures printable { CanPrint (λ core. machine_in core.world) result }
{
    let core = source.core();
    ReportParts {
        desc: core.desc(),
        source: core.journal(),
        joint: source.joint(),
        loaded: loaded_core(loaded),
        destination: destination_journal(taken_over),
        final_state: last_core(status, core, taken_over),
    }
}

/// Prints the report of a migration.
fn print_migration<S: Sink>(migration: Migration, out: &mut S) -> Status
    requires { IsPrintableMigration migration }
    ensures { Ends result migration.status (report migration.status (made_in migration))
        (sink_tells (S.holds out.old) (S.faults out.old)) (sink_tells (S.holds out.new) (S.faults out.new)) }
{
    let Migration {
        status,
        source,
        loaded,
        taken_over,
    } = migration;
    match &source {
        Some(source) => {
            let parts = parts_of(&status, source, &loaded, &taken_over);
            print_report(status, Some(&parts), out)
        }
        None => print_line(status, out),
    }
}

/// Prints what a call that asks for a move came to.
pub fn print_outcome<S: Sink>(outcome: Outcome, out: &mut S) -> Status
    requires { IsPrintable outcome }
    ensures { Ends result (status_of outcome) (report (status_of outcome) (made_of_outcome outcome))
        (sink_tells (S.holds out.old) (S.faults out.old)) (sink_tells (S.holds out.new) (S.faults out.new)) }
{
    match outcome {
        Outcome::Undescribed(status) => print_line(status, out),
        Outcome::Migrated(migration) => print_migration(migration, out),
    }
}
