//! Reports of runs as text.

ghost use Rattle.std.specs.Prelude.{◌≡◌, ℕ, ◌<◌, List, [], ◌++◌, codes, Some, option_map, IfSome};
ghost use Rattle.vfm_types.specs.Desc.{device_count};
ghost use Rattle.vfm_plain.specs.Shape.{HasShape};
ghost use Rattle.vfm_plain.specs.Text.{line};
ghost use Rattle.vfm_plain.specs.Report.{journal_part, state_part, if_there, parts_text};
ghost use Rattle.vfm_text.specs.Writers.{Writes};
ghost use Rattle.vfm_text.specs.Parts.{made_of, CanPrint};

use crate::entry::put_journal;
use crate::piece::put_line;
use crate::state::put_state;
use crate::{MachineView, TextWriter};
use vfm_journal::Journal;
use vfm_outside::Failed;
use vfm_plain::Plain;
use vfm_types::Desc;

/// What a run made, as its report has it after the status line. Each part but the first two is there only where the run has
/// it. The machine at the joint stop is a plain one; the other two are lent by what holds them.
#[derive(Drop)]
pub struct ReportParts<'a, M> {
    /// The described machine.
    pub desc: &'a Desc,
    /// The source's journal.
    pub source: &'a Journal,
    /// The machine at the joint stop.
    pub joint: Option<&'a Plain>,
    /// The machine that the destination loaded, where it differs.
    pub loaded: Option<&'a M>,
    /// The destination's journal.
    pub destination: Option<&'a Journal>,
    /// The machine at the end. (`final` is a word of the language.)
    pub final_state: Option<&'a M>,
}

/// Writes a journal under its title.
fn put_journal_part<P: TextWriter>(
    writer: &mut P,
    title: &[u8],
    journal: &Journal,
) -> Result<(), Failed>
    ensures { Writes P.takes P.stops writer.old writer.new (journal_part title.now journal.now.entries) result }
{
    put_line(writer, b"journal", &[title])?;
    put_journal(writer, journal)
}

/// Writes a journal under its title, where it is there.
fn put_journal_if<P: TextWriter>(
    writer: &mut P,
    title: &[u8],
    journal: Option<&Journal>,
) -> Result<(), Failed>
    ensures { Writes P.takes P.stops writer.old writer.new
        (if_there (journal_part title.now) (option_map (λ j. j.now.entries) journal.entry)) result }
{
    match journal {
        Some(journal) => put_journal_part(writer, title, journal),
        None => Ok(()),
    }
}

/// Writes a machine under its title.
fn put_state_part<P: TextWriter, M: MachineView>(
    writer: &mut P,
    desc: &Desc,
    title: &[u8],
    machine: &M,
) -> Result<(), Failed>
    requires shape { HasShape desc.now (M.machine machine.now) }
    requires few { device_count desc.now < 256 }
    ensures { Writes P.takes P.stops writer.old writer.new (state_part desc.now title.now (M.machine machine.now)) result }
{
    put_line(writer, b"state", &[title])?;
    put_state(writer, machine, desc)
}

/// Writes a machine under its title, where it is there.
fn put_state_if<P: TextWriter, M: MachineView>(
    writer: &mut P,
    desc: &Desc,
    title: &[u8],
    machine: Option<&M>,
) -> Result<(), Failed>
    requires shape { IfSome machine (λ m. HasShape desc.now (M.machine m.now)) }
    requires few { device_count desc.now < 256 }
    ensures { Writes P.takes P.stops writer.old writer.new
        (if_there (state_part desc.now title.now) (option_map (λ m. M.machine m.now) machine.entry)) result }
{
    match machine {
        Some(machine) => put_state_part(writer, desc, title, machine),
        None => Ok(()),
    }
}

/// Writes the parts of a report in their order, and the line that ends them.
pub fn put_parts<P: TextWriter, M: MachineView>(
    writer: &mut P,
    parts: &ReportParts<'_, M>,
) -> Result<(), Failed>
    requires { CanPrint M.machine parts.now }
    ensures { Writes P.takes P.stops writer.old writer.new (parts_text (made_of M.machine parts.now)) result }
{
    let desc = parts.desc;
    put_journal_part(writer, b"source", parts.source)?;
    put_state_if(writer, desc, b"joint", parts.joint)?;
    put_state_if(writer, desc, b"loaded", parts.loaded)?;
    put_journal_if(writer, b"destination", parts.destination)?;
    put_state_if(writer, desc, b"final", parts.final_state)?;
    put_line(writer, b"end", &[])
}
