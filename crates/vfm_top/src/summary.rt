//! Printing what a generated load ends with.

ghost use Rattle.std.specs.Prelude.{◌≡◌, ◌<◌, ◌∷◌, [], ◌++◌, IfSome, None, codes, decimal, option_map};
ghost use Rattle.hex.specs.Hex.{encode_lower};
ghost use Rattle.vfm_types.specs.Desc.{device_count};
ghost use Rattle.vfm_core.specs.CoreState.{FitsDesc};
ghost use Rattle.vfm_core.specs.Machines.{machine_in};
ghost use Rattle.vfm_migrate.specs.Migrations.{made_by, made_in};
ghost use Rattle.vfm_move.specs.Table.{owner_at};
ghost use Rattle.vfm_outside.specs.Tells.{sink_tells};
ghost use Rattle.vfm_plain.specs.Report.{if_there};
ghost use Rattle.vfm_plain.specs.Shape.{HasShape};
ghost use Rattle.vfm_plain.specs.Text.{line};
ghost use Rattle.vfm_status.specs.StatusText.{status_line};
ghost use Rattle.vfm_text.specs.Prints.{Prints};
ghost use Rattle.vfm_text.specs.Writers.{Writes};
ghost use Rattle.vfm_top.specs.Text.{load_report, summary};
ghost use Rattle.vfm_top.specs.Answers.{Ends};
ghost use Rattle.vfm_top.specs.Outcome.{IsOfOneMachine, IsPrintable, IsPrintableMigration, is_neither, last_machine, made_of as made_of_outcome, status_of};

use crate::Status;
use crate::outcome::Outcome;
use crate::print::{last_core, print_line};
use vfm_core::Core;
use vfm_generate::Sums;
use vfm_migrate::Migration;
use vfm_outside::{Failed, Sink};
use vfm_plain::Plain;
use vfm_source::Mover;
use vfm_status::{number_text, put_status};
use vfm_text::{MachineView, SinkWriter, TextBuffer, TextWriter, put_line, state_digest};
use vfm_types::Desc;

/// How many digits a digest has.
const DIGITS: usize = 64;

/// A digest as digits.
fn digest_text(digest: &[u8; 32]) -> TextBuffer
    ensures { result ≡ encode_lower digest.now }
{
    let mut digits = [0u8; DIGITS];
    if hex::encode_to_slice(digest, &mut digits).is_err() {
        unreachable!();
    }
    let mut word = TextBuffer::new();
    word.add(&digits);
    word
}

/// Writes a line of a word and a number.
fn put_number<P: TextWriter>(writer: &mut P, word: &[u8], number: u64) -> Result<(), Failed>
    ensures { Writes P.takes P.stops writer.old writer.new (line word.now (decimal number ∷ [])) result }
{
    put_line(writer, word, &[number_text(number).as_slice()])
}

/// Writes the line of a digest.
fn put_digest<P: TextWriter>(writer: &mut P, digest: &[u8; 32]) -> Result<(), Failed>
    ensures { Writes P.takes P.stops writer.old writer.new (line (codes "digest") (encode_lower digest.now ∷ [])) result }
{
    put_line(writer, b"digest", &[digest_text(digest).as_slice()])
}

/// Writes the summary of a machine of load `number`.
fn put_summary<P: TextWriter, M: MachineView>(
    writer: &mut P,
    number: u32,
    desc: &Desc,
    machine: &M,
) -> Result<(), Failed>
    requires shape { HasShape desc.now (M.machine machine.now) }
    requires few { device_count desc.now < 256 }
    ensures { Writes P.takes P.stops writer.old writer.new (summary number desc.now (M.machine machine.now)) result }
{
    let sums = Sums::of(desc, machine);
    put_number(writer, b"load", u64::from(number))?;
    put_number(writer, b"accepted", sums.accepted)?;
    put_number(writer, b"done", sums.done)?;
    put_number(writer, b"lost", sums.lost)?;
    put_digest(writer, &state_digest(machine, desc))
}

/// Writes the line of a status, and the summary of a machine of load `number` where there is one.
fn put_load<P: TextWriter, M: MachineView>(
    writer: &mut P,
    status: &Status,
    number: u32,
    desc: &Desc,
    machine: Option<&M>,
) -> Result<(), Failed>
    requires shape { IfSome machine (λ m. HasShape desc.now (M.machine m.now)) }
    requires few { device_count desc.now < 256 }
    ensures { Writes P.takes P.stops writer.old writer.new
        (status_line status.now ++ if_there (summary number desc.now) (option_map (λ m. M.machine m.now) machine.entry)) result }
{
    put_status(writer, status)?;
    match machine {
        Some(machine) => put_summary(writer, number, desc, machine),
        None => Ok(()),
    }
}

/// Writes the same to a sink.
fn write_load<S: Sink, M: MachineView>(
    status: &Status,
    number: u32,
    desc: &Desc,
    machine: Option<&M>,
    out: &mut S,
) -> Result<(), Failed>
    requires shape { IfSome machine (λ m. HasShape desc.now (M.machine m.now)) }
    requires few { device_count desc.now < 256 }
    ensures { Prints result (status_line status.now ++ if_there (summary number desc.now) (option_map (λ m. M.machine m.now) machine.entry))
        (sink_tells (S.holds out.old) (S.faults out.old)) (sink_tells (S.holds out.new) (S.faults out.new)) }
{
    let mut writer = SinkWriter {
        buffer: TextBuffer::new(),
        sink: out,
    };
    put_load(&mut writer, status, number, desc, machine)?;
    writer.flush()
}

/// Prints the same and ends with the status, or with `WriteFault` where the sink failed.
fn print_summary<S: Sink, M: MachineView>(
    status: Status,
    number: u32,
    desc: &Desc,
    machine: Option<&M>,
    out: &mut S,
) -> Status
    requires shape { IfSome machine (λ m. HasShape desc.now (M.machine m.now)) }
    requires few { device_count desc.now < 256 }
    ensures { Ends result status (status_line status ++ if_there (summary number desc.now) (option_map (λ m. M.machine m.now) machine.entry))
        (sink_tells (S.holds out.old) (S.faults out.old)) (sink_tells (S.holds out.new) (S.faults out.new)) }
{
    match write_load(&status, number, desc, machine, out) {
        Ok(()) => status,
        Err(_) => Status::WriteFault,
    }
}

/// Whether at a status neither end runs.
fn is_in_doubt(status: &Status) -> bool
    ensures { result ≡ is_neither (owner_at status.now) }
{
    matches!(status, Status::InDoubt(_))
}

/// Prints the summary of a migration that had this source: of the machine at the end, or where neither end runs of that at the
/// joint stop.
fn print_end<S: Sink>(
    status: Status,
    number: u32,
    source: &Mover,
    taken_over: &Option<Core>,
    out: &mut S,
) -> Status
    requires { IsOfOneMachine source.now None taken_over.now }
    ensures { Ends result status
        (status_line status ++ if_there (summary number source.now.core.desc) (last_machine (owner_at status) source.now taken_over.now))
        (sink_tells (S.holds out.old) (S.faults out.old)) (sink_tells (S.holds out.new) (S.faults out.new)) }
{
    let core = source.core();
    let desc = core.desc();
    if is_in_doubt(&status) {
        return print_summary::<S, Plain>(status, number, desc, source.joint(), out);
    }
    let last = last_core(&status, core, taken_over);
    print_summary(status, number, desc, last, out)
}

/// Prints the summary of a migration of load `number`.
fn print_moved<S: Sink>(number: u32, migration: Migration, out: &mut S) -> Status
    requires { IsPrintableMigration migration }
    ensures { Ends result migration.status (load_report number migration.status (made_in migration))
        (sink_tells (S.holds out.old) (S.faults out.old)) (sink_tells (S.holds out.new) (S.faults out.new)) }
{
    let Migration {
        status,
        source,
        loaded: _,
        taken_over,
    } = migration;
    match &source {
        Some(source) => print_end(status, number, source, &taken_over, out),
        None => print_line(status, out),
    }
}

/// Prints what a call that asks for load `number` came to.
pub fn print_load<S: Sink>(number: u32, outcome: Outcome, out: &mut S) -> Status
    requires { IsPrintable outcome }
    ensures { Ends result (status_of outcome) (load_report number (status_of outcome) (made_of_outcome outcome))
        (sink_tells (S.holds out.old) (S.faults out.old)) (sink_tells (S.holds out.new) (S.faults out.new)) }
{
    match outcome {
        Outcome::Undescribed(status) => print_line(status, out),
        Outcome::Migrated(migration) => print_moved(number, migration, out),
    }
}
