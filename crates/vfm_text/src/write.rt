//! Texts written to a sink, and the digest of one.

ghost use Rattle.std.specs.Prelude.{◌≡◌, ℕ, ◌<◌, Some, IfSome};
ghost use Rattle.vfm_types.specs.Desc.{device_count};
ghost use Rattle.vfm_plain.specs.Shape.{HasShape};
ghost use Rattle.vfm_plain.specs.EntryText.{journal_text};
ghost use Rattle.vfm_plain.specs.StateText.{state_text, state_digest};
ghost use Rattle.vfm_outside.specs.Tells.{sink_tells};
ghost use Rattle.vfm_text.specs.Prints.{Prints};

use crate::MachineView;
use crate::buffer::TextBuffer;
use crate::digest_writer::DigestWriter;
use crate::entry::put_journal;
use crate::sink_writer::SinkWriter;
use crate::state::put_state;
use sha2::{Digest, Sha256};
use vfm_journal::Journal;
use vfm_outside::{Failed, Sink};
use vfm_types::Desc;

/// Writes a journal, a line for each entry. `Failed` only where the sink failed; then a prefix of the text is written.
pub fn write_journal<S: Sink>(journal: &Journal, out: &mut S) -> Result<(), Failed>
    ensures { Prints result (journal_text journal.now.entries) (sink_tells (S.holds out.old) (S.faults out.old)) (sink_tells (S.holds out.new) (S.faults out.new)) }
{
    let mut writer = SinkWriter {
        buffer: TextBuffer::new(),
        sink: out,
    };
    put_journal(&mut writer, journal)?;
    writer.flush()
}

/// Writes the text of a machine. `Failed` only where the sink failed; then a prefix of the text is written.
pub fn write_state<S: Sink, M: MachineView>(
    machine: &M,
    desc: &Desc,
    out: &mut S,
) -> Result<(), Failed>
    requires shape { HasShape desc.now (M.machine machine.now) }
    requires few { device_count desc.now < 256 }
    ensures { Prints result (state_text desc.now (M.machine machine.now)) (sink_tells (S.holds out.old) (S.faults out.old)) (sink_tells (S.holds out.new) (S.faults out.new)) }
{
    let mut writer = SinkWriter {
        buffer: TextBuffer::new(),
        sink: out,
    };
    put_state(&mut writer, machine, desc)?;
    writer.flush()
}

/// The digest of a machine: SHA-256 (FIPS 180-4) of its text.
pub fn state_digest<M: MachineView>(machine: &M, desc: &Desc) -> [u8; 32]
    requires shape { HasShape desc.now (M.machine machine.now) }
    requires few { device_count desc.now < 256 }
    ensures { result ≡ state_digest desc.now (M.machine machine.now) }
{
    let mut writer = DigestWriter {
        hasher: Sha256::new(),
    };
    if put_state(&mut writer, machine, desc).is_err() {
        unreachable!();
    }
    let DigestWriter { hasher } = writer;
    hasher.finalize()
}
