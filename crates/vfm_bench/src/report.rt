//! The report of a run: written, read and audited.

ghost use Rattle.std.specs.Prelude.{◌≡◌, IfOk};
ghost use Rattle.vfm_types.specs.Valid.{IsValid};
ghost use Rattle.vfm_plain.specs.Shape.{HasShape};
ghost use Rattle.vfm_text.specs.Parts.{CanPrint};
ghost use Rattle.vfm_drive.specs.Runs.{HasRun};

use crate::drive::driven;
use anyhow::{Result, bail};
use std::alloc::Global;
use vfm_audit::audit_report;
use vfm_core::Core;
use vfm_drive::give_up;
use vfm_outside::{MemSink, Sink, write_all};
use vfm_plain::Plain;
use vfm_report::{Report, read_report};
use vfm_text::{ReportParts, SinkWriter, TextBuffer, put_parts};
use vfm_types::Desc;

/// The most bytes that a report may have.
const MOST: usize = 134_217_728;

// the machine of a core, copied
fn machine_of(alloc: Global, core: &Core) -> Result<Plain>
    ensures { IfOk result (λ plain. HasShape core.now.desc plain) }
{
    let Ok(mut plain) = Plain::of(alloc, core.desc()) else {
        bail!("no memory for a machine");
    };
    core.copy_into(&mut plain);
    Ok(plain)
}

// writes the parts of a report behind its status line
fn write_parts(parts: &ReportParts<'_, Plain>, out: &mut MemSink) -> Result<()>
    requires { CanPrint (λ m. m) parts.now }
{
    if write_all(&mut *out, b"status link-fault control\n").is_err() {
        bail!("no room for the status line");
    }
    let mut writer = SinkWriter {
        buffer: TextBuffer::new(),
        sink: out,
    };
    if put_parts(&mut writer, parts).is_err() || writer.flush().is_err() {
        bail!("no room for the report");
    }
    Ok(())
}

// writes the report of a source that gave up, with its machine at the joint stop and at the end
fn write_report<'a>(
    core: &'a Core,
    joint: &'a Plain,
    last: &'a Plain,
    out: &mut MemSink,
) -> Result<()>
    requires joint { HasShape core.now.desc joint.now }
    requires last { HasShape core.now.desc last.now }
{
    let desc = core.desc();
    let source = core.journal();
    let joint = Some(joint);
    let last = Some(last);
    let parts = ReportParts {
        desc,
        source,
        joint,
        loaded: None,
        destination: None,
        final_state: last,
    };
    write_parts(&parts, out)
}

// the source gives up, and comes home
fn come_home(core: &mut Core)
    requires { HasRun core.old.desc core.old.world }
    ensures { core.new.desc ≡ core.old.desc }
{
    give_up(core);
}

/// Writes the report of a whole run: a source has sent its whole state, and gives up.
pub fn written(alloc: Global, desc: Desc) -> Result<MemSink>
    requires { IsValid desc }
{
    let mut core = driven(alloc, desc)?;
    let joint = machine_of(alloc, &core)?;
    come_home(&mut core);
    let last = machine_of(alloc, &core)?;
    let Ok(mut sink) = MemSink::of(alloc, MOST, Vec::new(alloc), u32::MAX) else {
        bail!("no memory for the report");
    };
    write_report(&core, &joint, &last, &mut sink)?;
    Ok(sink)
}

/// Reads a report, and says how many entries it has.
pub fn count_read(alloc: Global, desc: &Desc, bytes: &[u8]) -> Result<u64>
    requires { IsValid desc.now }
{
    match read_report(alloc, desc, bytes) {
        Ok(report) => Ok(report.source.len() as u64),
        Err(fault) => bail!("the report isn't read: {fault}"),
    }
}

/// Reads and audits a report, and says how many entries it has.
pub fn count_audited(alloc: Global, desc: &Desc, bytes: &[u8]) -> Result<u64>
    requires { IsValid desc.now }
{
    let report = match read_report(alloc, desc, bytes) {
        Ok(report) => report,
        Err(fault) => bail!("the report isn't read: {fault}"),
    };
    match audit_report(alloc, desc, &report) {
        Ok(count) => Ok(count),
        Err(fault) => bail!("the report isn't legal: {fault}"),
    }
}
