//! Reading the lines of a printed device.

ghost use Rattle.std.specs.Prelude.{◌≡◌, ◌++◌, ◌<◌, ◌≤◌, ◌∷◌, [], length, MatchOption, IfSome, IfNone};
ghost use Rattle.std.specs.Option.{option_map, option_copied};
ghost use Rattle.vfm_types.specs.Desc.{device_count, shape_at};
ghost use Rattle.vfm_types.specs.Valid.{IsValid};
ghost use Rattle.vfm_report.specs.LineList.{lines_left};
ghost use Rattle.vfm_report.specs.Found.{Read, found_map, one_line, many_lines};
ghost use Rattle.vfm_report.specs.Finding.{Finds, Gets, Ends, Begins, Fewer};
ghost use Rattle.vfm_report.specs.Readers.{bytes_if, buf_in, only_bar_in, bar_in, counts_in, pending_in, numbered_bars, bars_reader, device_reader};

use crate::digits::{append_hex, is_hex};
use crate::lines::Lines;
use crate::printed::PrintedDevice;
use crate::state_line::{bar_word, counts, named_word, pending};
use crate::stop::Stop;
use crate::words::Words;
use std::alloc::Global;
use vfm_types::{Desc, DeviceId, NoMemory};

/// A device's buffer has so many bytes.
const BUF: u32 = 64;

/// Adds the bytes of a word that there is, where it has so many.
pub(crate) fn append_word(bytes: &mut Vec<u8>, size: u32, word: Option<&[u8]>) -> Result<(), Stop>
    ensures { Gets (λ u. bytes.new.items) result (option_map (λ b. bytes.old.items ++ b) (bytes_if size (option_copied word.entry))) }
{
    let word = match word {
        Some(word) => word,
        None => return Err(Stop::BadLine),
    };
    if !is_hex(size as usize, word) {
        return Err(Stop::BadLine);
    }
    append_hex(bytes, size as usize, word)?;
    Ok(())
}

/// The bytes of a word that there is, where it has so many.
pub(crate) fn bytes_of(alloc: Global, size: u32, word: Option<&[u8]>) -> Result<Vec<u8>, Stop>
    ensures { Gets (λ v. v.items) result (bytes_if size (option_copied word.entry)) }
{
    let mut bytes = Vec::new(alloc);
    append_word(&mut bytes, size, word)?;
    Ok(bytes)
}

/// The counts of device `d`.
fn read_counts(lines: &mut Lines, desc: &Desc, d: DeviceId) -> Result<(u32, u32, u32), Stop>
    requires { d < device_count desc.now }
    ensures { Finds (λ p. p) result (lines_left lines.new) (one_line (counts_in desc.now d) (lines_left lines.old)) }
{
    let Some((line, after)) = lines.first() else {
        return Err(Stop::BadLine);
    };
    let name = desc.devices.at(u32::from(d.0)).name.bytes();
    let Some(found) = counts(Words::of(line), d, name) else {
        return Err(Stop::BadLine);
    };
    *lines = after;
    Ok(found)
}

/// The buffer of device `d`.
fn read_buf(alloc: Global, lines: &mut Lines, d: DeviceId) -> Result<Vec<u8>, Stop>
    ensures { Finds (λ v. v.items) result (lines_left lines.new) (one_line (buf_in d) (lines_left lines.old)) }
{
    let Some((line, after)) = lines.first() else {
        return Err(Stop::BadLine);
    };
    let buf = bytes_of(
        alloc,
        BUF,
        named_word(Words::of(line), b"buf", u32::from(d.0)),
    )?;
    *lines = after;
    Ok(buf)
}

/// The only BAR of device `d`, which has this size.
fn read_only_bar(alloc: Global, lines: &mut Lines, d: DeviceId, size: u32) -> Result<Vec<u8>, Stop>
    ensures { Finds (λ v. v.items) result (lines_left lines.new) (one_line (only_bar_in d size) (lines_left lines.old)) }
{
    let Some((line, after)) = lines.first() else {
        return Err(Stop::BadLine);
    };
    let bar = bytes_of(
        alloc,
        size,
        named_word(Words::of(line), b"bar", u32::from(d.0)),
    )?;
    *lines = after;
    Ok(bar)
}

/// Adds BAR `k` of several of device `d`, which has this size.
fn append_bar(
    bytes: &mut Vec<u8>,
    lines: &mut Lines,
    d: DeviceId,
    k: u32,
    size: u32,
) -> Result<(), Stop>
    ensures { Finds (λ u. bytes.new.items) result (lines_left lines.new) (found_map (λ b. bytes.old.items ++ b) (one_line (bar_in d k size) (lines_left lines.old))) }
{
    let Some((line, after)) = lines.first() else {
        return Err(Stop::BadLine);
    };
    append_word(bytes, size, bar_word(Words::of(line), d, k))?;
    *lines = after;
    Ok(())
}

/// The BARs of device `d`, which have these sizes.
fn read_several_bars(
    alloc: Global,
    lines: &mut Lines,
    d: DeviceId,
    sizes: &[u32],
) -> Result<Vec<u8>, Stop>
    requires { length sizes.now ≤ 6 }
    ensures { Finds (λ v. v.items) result (lines_left lines.new) (numbered_bars d 0 sizes.now (lines_left lines.old)) }
{
    let mut bytes = Vec::new(alloc);
    for k in 0..sizes.len() {
        append_bar(&mut bytes, lines, d, k as u32, sizes[k])?;
    }
    Ok(bytes)
}

/// The BARs of device `d`, which have these sizes: one has no number.
fn read_bars(alloc: Global, lines: &mut Lines, d: DeviceId, sizes: &[u32]) -> Result<Vec<u8>, Stop>
    requires { length sizes.now ≤ 6 }
    ensures { Finds (λ v. v.items) result (lines_left lines.new) (bars_reader d sizes.now (lines_left lines.old)) }
{
    if sizes.len() == 1 {
        read_only_bar(alloc, lines, d, sizes[0])
    } else {
        read_several_bars(alloc, lines, d, sizes)
    }
}

/// The next line as a pending request of device `d`, and the lines after it, where it is one.
fn next_pending<'a>(lines: Lines<'a>, desc: &Desc, d: DeviceId) -> Option<((u32, u32), Lines<'a>)>
    requires { d < device_count desc.now }
    ensures none { IfNone result (Ends (pending_in desc.now d) (lines_left lines.entry)) }
    ensures some { IfSome result (λ p. Begins (pending_in desc.now d) (lines_left lines.entry) p.0 (lines_left p.1)) }
    ensures fewer { Fewer result (lines_left lines.entry) (λ p. lines_left p.1) }
{
    let (line, after) = lines.first()?;
    let jobs = desc.devices.at(u32::from(d.0)).jobs.len();
    let request = pending(Words::of(line), d, jobs)?;
    Some((request, after))
}

/// The pending requests of device `d`.
fn read_pending(
    alloc: Global,
    lines: &mut Lines,
    desc: &Desc,
    d: DeviceId,
) -> Result<Vec<(u32, u32)>, Stop>
    requires { d < device_count desc.now }
    ensures { Finds (λ v. v.items) result (lines_left lines.new) (many_lines (pending_in desc.now d) (lines_left lines.old)) }
{
    let mut list = Vec::new(alloc);
    while let Some((request, after)) = next_pending(*lines, desc, d) {
        if list.push(request).is_err() {
            return Err(Stop::NoMemory);
        }
        *lines = after;
    }
    Ok(list)
}

/// The lines of device `d`.
pub(crate) fn read_device(
    alloc: Global,
    lines: &mut Lines,
    desc: &Desc,
    d: DeviceId,
) -> Result<PrintedDevice, Stop>
    requires { d < device_count desc.now }
    ensures { Finds (λ device. device) result (lines_left lines.new) (device_reader desc.now d (lines_left lines.old)) }
{
    let (accepted, done, lost) = read_counts(lines, desc, d)?;
    let buf = read_buf(alloc, lines, d)?;
    let sizes = desc.devices.at(u32::from(d.0)).bars.as_slice();
    let bar = read_bars(alloc, lines, d, sizes)?;
    let pending = read_pending(alloc, lines, desc, d)?;
    Ok(PrintedDevice {
        bar,
        pending,
        buf,
        accepted,
        done,
        lost,
    })
}
