//! Journals as text.

ghost use Rattle.std.specs.Prelude.{◌≡◌, ℕ, List, [], ◌∷◌, ◌++◌, decimal};
ghost use Rattle.vfm_plain.specs.Text.{line, state_name};
ghost use Rattle.vfm_plain.specs.EntryText.{entry_line, journal_text};
ghost use Rattle.vfm_text.specs.Writers.{Writes};

use crate::TextWriter;
use crate::piece::put_line;
use itoa::Buffer;
use vfm_journal::Journal;
use vfm_outside::Failed;
use vfm_types::{DeviceId, Entry, MigState};

/// The name of a state in `linux/vfio.h`.
pub fn state_name(state: MigState) -> &'static [u8]
    ensures { result.now ≡ state_name state }
{
    match state {
        MigState::Error => b"ERROR",
        MigState::Stop => b"STOP",
        MigState::Running => b"RUNNING",
        MigState::StopCopy => b"STOP_COPY",
        MigState::Resuming => b"RESUMING",
        MigState::RunningP2p => b"RUNNING_P2P",
        MigState::PreCopy => b"PRE_COPY",
        MigState::PreCopyP2p => b"PRE_COPY_P2P",
    }
}

/// Writes a line of a word and a number.
fn put_number<P: TextWriter>(writer: &mut P, word: &[u8], number: u32) -> Result<(), Failed>
    ensures { Writes P.takes P.stops writer.old writer.new (line word.now (decimal number ∷ [])) result }
{
    let mut digits = Buffer::new();
    put_line(writer, word, &[digits.format(number).as_bytes()])
}

/// Writes a line of a word, a device and a number.
fn put_device<P: TextWriter>(
    writer: &mut P,
    word: &[u8],
    d: DeviceId,
    number: u32,
) -> Result<(), Failed>
    ensures { Writes P.takes P.stops writer.old writer.new (line word.now (decimal d ∷ decimal number ∷ [])) result }
{
    let mut device = Buffer::new();
    let mut digits = Buffer::new();
    put_line(
        writer,
        word,
        &[
            device.format(d.0).as_bytes(),
            digits.format(number).as_bytes(),
        ],
    )
}

/// Writes a line of a word, a device and a state.
fn put_to<P: TextWriter>(
    writer: &mut P,
    word: &[u8],
    d: DeviceId,
    to: MigState,
) -> Result<(), Failed>
    ensures { Writes P.takes P.stops writer.old writer.new (line word.now (decimal d ∷ state_name to ∷ [])) result }
{
    let mut device = Buffer::new();
    put_line(
        writer,
        word,
        &[device.format(d.0).as_bytes(), state_name(to)],
    )
}

/// Writes the line of an entry.
pub fn put_entry<P: TextWriter>(writer: &mut P, entry: Entry) -> Result<(), Failed>
    ensures { Writes P.takes P.stops writer.old writer.new (entry_line entry) result }
{
    match entry {
        Entry::Issue { d, n } => put_device(writer, b"issue", d, n),
        Entry::Deliver { d, n } => put_device(writer, b"deliver", d, n),
        Entry::Complete { d, n } => put_device(writer, b"complete", d, n),
        Entry::Hold { d, to } => put_to(writer, b"hold", d, to),
        Entry::Arc { d, to } => put_to(writer, b"arc", d, to),
        Entry::Fail { d, to } => put_to(writer, b"fail", d, to),
        Entry::Report { d } => put_number(writer, b"report", u32::from(d.0)),
        Entry::Pass { k } => put_number(writer, b"pass", k),
        Entry::Copy { p } => put_number(writer, b"copy", p),
        Entry::Block { d, b } => put_device(writer, b"block", d, b),
        Entry::Dry { d } => put_number(writer, b"dry", u32::from(d.0)),
        Entry::Begin => put_line(writer, b"begin", &[]),
        Entry::Joint => put_line(writer, b"joint", &[]),
        Entry::Abort => put_line(writer, b"abort", &[]),
        Entry::Resume => put_line(writer, b"resume", &[]),
    }
}

/// Writes the lines of a journal.
pub fn put_journal<P: TextWriter>(writer: &mut P, journal: &Journal) -> Result<(), Failed>
    ensures { Writes P.takes P.stops writer.old writer.new (journal_text journal.now.entries) result }
{
    for entry in journal.as_slice() {
        put_entry(writer, *entry)?;
    }
    Ok(())
}
