//! Reading a whole report.

ghost use Rattle.std.specs.Prelude.{◌≡◌, ◌<◌, ◌≤◌, ◌+◌, ◌-◌, codes, length, IsTrue, ◌↔◌, []};
ghost use Rattle.vfm_types.specs.Desc.{device_count};
ghost use Rattle.vfm_report.specs.LineList.{lines_left};
ghost use Rattle.vfm_report.specs.Found.{one_line, found_map};
ghost use Rattle.vfm_report.specs.Finding.{Finds};
ghost use Rattle.vfm_types.specs.Valid.{IsValid};
ghost use Rattle.vfm_report.specs.LineList.{whole_lines};
ghost use Rattle.vfm_report.specs.LineList as spec;
ghost use Rattle.vfm_report.specs.Answer.{IsAnswer};
ghost use Rattle.vfm_report.specs.Readers.{status_in, parts_reader, whole_reader};
ghost use Rattle.vfm_report.specs.Parts.{parts_of};

use crate::journal::{read_journal, read_title, read_titled_journal};
use crate::lines::{Lines, after_lines, count_lines};
use crate::printed::PrintedState;
use crate::state::read_titled_state;
use crate::status_line::is_status_line;
use crate::stop::Stop;
use std::alloc::Global;
use thiserror::Error;
use vfm_journal::Journal;
use vfm_types::Desc;

/// What a report has after its status line: the source's journal; the state at the joint stop, the one that the
/// destination loaded, its journal, and the state at the end, each where the report has that part.
#[derive(Drop)]
pub struct Report {
    pub source: Journal,
    pub joint: Option<PrintedState>,
    pub loaded: Option<PrintedState>,
    pub dest: Option<Journal>,
    pub last: Option<PrintedState>,
}

/// The status line.
fn read_status(lines: &mut Lines, desc: &Desc) -> Result<(), Stop>
    ensures { Finds (λ u. u) result (lines_left lines.new) (found_map (λ l. tt) (one_line (status_in desc.now) (lines_left lines.old))) }
{
    let Some((line, after)) = lines.first() else {
        return Err(Stop::BadLine);
    };
    if !is_status_line(desc, line) {
        return Err(Stop::BadLine);
    }
    *lines = after;
    Ok(())
}

/// A whole report.
fn read_whole(alloc: Global, lines: &mut Lines, desc: &Desc) -> Result<Report, Stop>
    requires { device_count desc.now < 256 }
    ensures { Finds parts_of result (lines_left lines.new) (found_map (λ p. p.1) (whole_reader desc.now (lines_left lines.old))) }
{
    read_status(lines, desc)?;
    read_parts(alloc, lines, desc)
}

/// Whether no line is left, and nothing stands after the last.
fn is_done(bytes: &[u8], lines: Lines) -> bool
    ensures { IsTrue result ↔ (lines_left lines.entry ≡ []) × (spec.after_lines bytes.now ≡ []) }
{
    if lines.first().is_some() {
        return false;
    }
    after_lines(bytes).is_empty()
}

/// The first line of bytes, of which these are left, counted from 1.
fn line_number(bytes: &[u8], rest: &[u8]) -> u64
    requires { length (whole_lines rest.now) ≤ length (whole_lines bytes.now) }
    ensures { result ≡ length (whole_lines bytes.now) - length (whole_lines rest.now) + 1 }
{
    count_lines(bytes) - count_lines(rest) + 1
}

/// What stands after the status line.
fn read_parts(alloc: Global, lines: &mut Lines, desc: &Desc) -> Result<Report, Stop>
    requires { device_count desc.now < 256 }
    ensures { Finds parts_of result (lines_left lines.new) (parts_reader desc.now (lines_left lines.old)) }
{
    read_title(lines, b"journal source")?;
    let source = read_journal(alloc, lines, desc)?;
    let joint = read_titled_state(alloc, lines, desc, b"state joint")?;
    let loaded = read_titled_state(alloc, lines, desc, b"state loaded")?;
    let dest = read_titled_journal(alloc, lines, desc, b"journal destination")?;
    let last = read_titled_state(alloc, lines, desc, b"state final")?;
    read_title(lines, b"end")?;
    Ok(Report {
        source,
        joint,
        loaded,
        dest,
        last,
    })
}

/// Why bytes are no report.
#[derive(Debug, Drop, Error)]
pub enum TextFault {
    /// The first line, counted from 1, up to which no report begins so; where the bytes end too soon, the line that
    /// lacks its line feed, or else the one after the last.
    #[error("line {line} is none that may stand there in a report")]
    BadLine { line: u64 },
    /// Memory ran out.
    #[error("out of memory")]
    NoMemory,
}

/// The report that the bytes are: what it has after its status line. Or the first line at which they are none. One pass
/// over the bytes reads them; another looks for line feeds alone. Memory is taken for what the report has, its journals
/// growing as they are read.
pub fn read_report(alloc: Global, desc: &Desc, bytes: &[u8]) -> Result<Report, TextFault>
    requires { IsValid desc.now }
    ensures { IsAnswer desc.now bytes.now result }
{
    let mut lines = Lines::of(bytes);
    match read_whole(alloc, &mut lines, desc) {
        Ok(report) => {
            if is_done(bytes, lines) {
                Ok(report)
            } else {
                Err(TextFault::BadLine {
                    line: line_number(bytes, lines.rest()),
                })
            }
        }
        Err(Stop::BadLine) => Err(TextFault::BadLine {
            line: line_number(bytes, lines.rest()),
        }),
        Err(Stop::NoMemory) => Err(TextFault::NoMemory),
    }
}
