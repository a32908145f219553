//! Reading a printed journal.

ghost use Rattle.std.specs.Prelude.{◌≡◌, ◌∷◌, ◌<◌, [], MatchOption, length, nat_lt, ◌&&◌, IfSome, IfNone};
ghost use Rattle.std.specs.Option.{option_map};
ghost use Rattle.vfm_types.specs.Desc.{device_count, shape_at, block_count};
ghost use Rattle.vfm_plain.specs.Legal as legal;
ghost use Rattle.vfm_report.specs.LineList.{lines_left};
ghost use Rattle.vfm_report.specs.Found.{Read, found_map, many_lines, this_line, titled};
ghost use Rattle.vfm_report.specs.Finding.{Finds, Ends, Begins, Fewer};
ghost use Rattle.vfm_report.specs.Readers.{journal_reader};
ghost use Rattle.vfm_report.specs.Readers as spec;

use crate::entry::entry_of;
use crate::lines::Lines;
use crate::stop::Stop;
use crate::words::is_word;
use std::alloc::Global;
use vfm_journal::Journal;
use vfm_types::{Desc, DeviceId, Entry};

/// Whether the description has a device.
fn has_device(desc: &Desc, d: DeviceId) -> bool
    ensures { result ≡ nat_lt d (device_count desc.now) }
{
    u32::from(d.0) < desc.devices.len()
}

/// Whether the description has a block of a device.
fn has_block(desc: &Desc, d: DeviceId, b: u32) -> bool
    ensures { result ≡ (nat_lt d (device_count desc.now) && nat_lt b (block_count (shape_at desc.now d))) }
{
    if !has_device(desc, d) {
        return false;
    }
    b < desc.devices.at(u32::from(d.0)).bar_bytes() / 64
}

/// Whether the description has the device, the page and the block that an entry names.
fn is_entry_of(desc: &Desc, entry: &Entry) -> bool
    ensures { result ≡ legal.is_entry_of desc.now entry.now }
{
    match *entry {
        Entry::Issue { d, .. }
        | Entry::Deliver { d, .. }
        | Entry::Complete { d, .. }
        | Entry::Hold { d, .. }
        | Entry::Arc { d, .. }
        | Entry::Fail { d, .. }
        | Entry::Report { d }
        | Entry::Dry { d } => has_device(desc, d),
        Entry::Copy { p } => p < desc.pages,
        Entry::Block { d, b } => has_block(desc, d, b),
        _ => true,
    }
}

/// The entry of a line, where the description has what it names.
fn entry_in(desc: &Desc, line: &[u8]) -> Option<Entry>
    ensures { result ≡ spec.entry_in desc.now line.now }
{
    let entry = entry_of(line)?;
    let is_there = is_entry_of(desc, &entry);
    if is_there { Some(entry) } else { None }
}

/// The next line as an entry, and the lines after it, where it is one.
fn next_entry<'a>(lines: Lines<'a>, desc: &Desc) -> Option<(Entry, Lines<'a>)>
    ensures none { IfNone result (Ends (spec.entry_in desc.now) (lines_left lines.entry)) }
    ensures some { IfSome result (λ p. Begins (spec.entry_in desc.now) (lines_left lines.entry) p.0 (lines_left p.1)) }
    ensures fewer { Fewer result (lines_left lines.entry) (λ p. lines_left p.1) }
{
    let (line, after) = lines.first()?;
    let entry = entry_in(desc, line)?;
    Some((entry, after))
}

/// The entries of a journal.
pub(crate) fn read_journal(alloc: Global, lines: &mut Lines, desc: &Desc) -> Result<Journal, Stop>
    ensures { Finds (λ j. j.entries) result (lines_left lines.new) (journal_reader desc.now (lines_left lines.old)) }
{
    let mut journal = Journal::with_room(alloc, 0)?;
    while let Some((entry, after)) = next_entry(*lines, desc) {
        if journal.push_growing(entry).is_err() {
            return Err(Stop::NoMemory);
        }
        *lines = after;
    }
    Ok(journal)
}

/// A journal under a title, where the title stands there.
pub(crate) fn read_titled_journal(
    alloc: Global,
    lines: &mut Lines,
    desc: &Desc,
    title: &[u8],
) -> Result<Option<Journal>, Stop>
    ensures { Finds (λ j. option_map (λ log. log.entries) j) result (lines_left lines.new) (titled title.now (journal_reader desc.now) (lines_left lines.old)) }
{
    let Some((line, after)) = lines.first() else {
        return Ok(None);
    };
    if !is_word(line, title) {
        return Ok(None);
    }
    *lines = after;
    let journal = read_journal(alloc, lines, desc)?;
    Ok(Some(journal))
}

/// This line.
pub(crate) fn read_title(lines: &mut Lines, title: &[u8]) -> Result<(), Stop>
    ensures { Finds (λ u. u) result (lines_left lines.new) (this_line title.now (lines_left lines.old)) }
{
    let Some((line, after)) = lines.first() else {
        return Err(Stop::BadLine);
    };
    if !is_word(line, title) {
        return Err(Stop::BadLine);
    }
    *lines = after;
    Ok(())
}
