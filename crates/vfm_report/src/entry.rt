//! The entry that a line of a journal is of.

ghost use Rattle.std.specs.Prelude.{◌≡◌, MatchOption};
ghost use Rattle.vfm_report.specs.WordList.{words_left};
ghost use Rattle.vfm_report.specs.Entries.{IsEntryLine, IsNoEntryLine};
ghost use Rattle.vfm_report.specs.Entries as spec;

use crate::number::{device, number};
use crate::state_name::state;
use crate::words::{Words, is_word};
use vfm_types::{DeviceId, Entry, MigState};

/// Two words: a device and a number.
pub(crate) fn device_and_number(words: Words) -> Option<(DeviceId, u32)>
    ensures { result ≡ spec.device_and_number (words_left words.entry) }
{
    let (d, n) = words.two()?;
    let d = device(d)?;
    let n = number(n)?;
    Some((d, n))
}

/// Two words: a device and a state.
fn device_and_state(words: Words) -> Option<(DeviceId, MigState)>
    ensures { result ≡ spec.device_and_state (words_left words.entry) }
{
    let (d, to) = words.two()?;
    let d = device(d)?;
    let to = state(to)?;
    Some((d, to))
}

/// One word: a number.
fn only_number(words: Words) -> Option<u32>
    ensures { result ≡ spec.only_number (words_left words.entry) }
{
    number(words.one()?)
}

/// One word: a device.
fn only_device(words: Words) -> Option<DeviceId>
    ensures { result ≡ spec.only_device (words_left words.entry) }
{
    device(words.one()?)
}

/// An entry of a device and a number.
fn counted(name: &[u8], words: Words) -> Option<Entry>
    ensures { result ≡ spec.counted_entry name.now (words_left words.entry) }
{
    if is_word(name, b"issue") {
        let (d, n) = device_and_number(words)?;
        return Some(Entry::Issue { d, n });
    }
    if is_word(name, b"deliver") {
        let (d, n) = device_and_number(words)?;
        return Some(Entry::Deliver { d, n });
    }
    if is_word(name, b"complete") {
        let (d, n) = device_and_number(words)?;
        return Some(Entry::Complete { d, n });
    }
    if is_word(name, b"block") {
        let (d, b) = device_and_number(words)?;
        return Some(Entry::Block { d, b });
    }
    None
}

/// An entry of a device and a state.
fn moving(name: &[u8], words: Words) -> Option<Entry>
    ensures { result ≡ spec.moving_entry name.now (words_left words.entry) }
{
    if is_word(name, b"hold") {
        let (d, to) = device_and_state(words)?;
        return Some(Entry::Hold { d, to });
    }
    if is_word(name, b"arc") {
        let (d, to) = device_and_state(words)?;
        return Some(Entry::Arc { d, to });
    }
    if is_word(name, b"fail") {
        let (d, to) = device_and_state(words)?;
        return Some(Entry::Fail { d, to });
    }
    None
}

/// An entry of a device or of a number alone.
fn single(name: &[u8], words: Words) -> Option<Entry>
    ensures { result ≡ spec.single_entry name.now (words_left words.entry) }
{
    if is_word(name, b"report") {
        let d = only_device(words)?;
        return Some(Entry::Report { d });
    }
    if is_word(name, b"dry") {
        let d = only_device(words)?;
        return Some(Entry::Dry { d });
    }
    if is_word(name, b"pass") {
        let k = only_number(words)?;
        return Some(Entry::Pass { k });
    }
    if is_word(name, b"copy") {
        let p = only_number(words)?;
        return Some(Entry::Copy { p });
    }
    None
}

/// An entry of nothing more than its name.
fn bare(name: &[u8], words: Words) -> Option<Entry>
    ensures { result ≡ spec.bare_entry name.now (words_left words.entry) }
{
    let entry = if is_word(name, b"begin") {
        Entry::Begin
    } else if is_word(name, b"joint") {
        Entry::Joint
    } else if is_word(name, b"abort") {
        Entry::Abort
    } else if is_word(name, b"resume") {
        Entry::Resume
    } else {
        return None;
    };
    words.none()?;
    Some(entry)
}

/// The entry of a line of a journal, which stands here without its line feed; `None` exactly where no entry has this
/// line. Numbers are in the ranges of their types.
pub fn read_entry(line: &[u8]) -> Option<Entry>
    ensures { MatchOption result (IsNoEntryLine line.now) (IsEntryLine line.now) }
{
    entry_of(line)
}

/// The entry of a line.
pub(crate) fn entry_of(line: &[u8]) -> Option<Entry>
    ensures { result ≡ spec.entry_of_line line.now }
{
    let mut words = Words::of(line);
    let name = words.next()?;
    let entry = counted(name, words);
    if entry.is_some() {
        return entry;
    }
    let entry = moving(name, words);
    if entry.is_some() {
        return entry;
    }
    let entry = single(name, words);
    if entry.is_some() {
        return entry;
    }
    bare(name, words)
}
