//! The core at the destination, where a machine was loaded.

ghost use Rattle.std.specs.Prelude.{ℕ, ◌≡◌, ◌<◌, [], List, length, IfOk, IsFalse, IsTrue, slice_index_or};
ghost use Rattle.vfm_types.specs.declared.entry.Entry.{Entry};
ghost use Rattle.vfm_types.specs.Deliveries.{machine_of};
ghost use Rattle.vfm_types.specs.Desc.{device_count, shape_at};
ghost use Rattle.vfm_types.specs.Machine.{device_of};
ghost use Rattle.vfm_types.specs.Phases.{is_aborted, is_failed, is_resumed};
ghost use Rattle.vfm_plain.specs.Ended.{is_last_ended};
ghost use Rattle.vfm_plain.specs.Legal.{IsLegal};
ghost use Rattle.vfm_parts.specs.Parts.{listed};
ghost use Rattle.vfm_parts_laws.specs.StagedParts.{staged_dev};
ghost use Rattle.vfm_core.specs.CoreState.{IsStagedOn};
ghost use Rattle.vfm_core.specs.Loaded.{AreLoaded, device_in, loaded, staged_core};

use crate::Core;
use crate::described::room_of_run;
use std::alloc::Global;
use vfm_device_part::{DevPart, PagePart};
use vfm_journal::Journal;
use vfm_lead::LeadPart;
use vfm_plain::Part;
use vfm_types::{Bytes, Desc, DeviceId, NoMemory};

impl Core {
    /// The core at the destination of a machine that was handed over in these parts: the memory, then each device in its
    /// order. Every device stands in `STOP_COPY`, the last pass has ended, the journal is empty. Takes room for every entry
    /// of a run.
    ///
    /// After a legal list whose last pass has ended, without Abort, Resume and Fail, and whose machine this is, the core
    /// goes on from there.
    pub fn staged(alloc: Global, desc: Desc, parts: Vec<Part>) -> Result<Core, NoMemory>
        requires { AreLoaded desc parts.items }
        ensures core { IfOk result (λ core. core ≡ staged_core desc parts.items) }
        ensures begins { (past : List Entry) → IsLegal desc past → IsTrue (is_last_ended desc past) → IsFalse (is_aborted past)
            → IsFalse (is_resumed past) → IsFalse (is_failed past) → machine_of desc past ≡ loaded parts.items
            → IfOk result (λ core. IsStagedOn core.desc past [] core.world) }
    {
        let pages = loaded_pages(alloc, &desc, parts.as_slice())?;
        let devices = loaded_devices(alloc, &desc, parts.as_slice())?;
        let journal = Journal::with_room(alloc, room_of_run(&desc))?;
        Ok(Core {
            lead: LeadPart::staged(&desc),
            desc,
            journal,
            devices,
            pages,
        })
    }
}

// the pages of the memory among these parts
fn loaded_pages(alloc: Global, desc: &Desc, parts: &[Part]) -> Result<Vec<PagePart>, NoMemory>
    requires { AreLoaded desc.now parts.now }
    ensures { IfOk result (λ list. list.items ≡ (loaded parts.now).pages) }
{
    match &parts[0] {
        Part::Pages(sheets) => copied_pages(alloc, sheets.lent(), desc.page),
        Part::Device { .. } => unreachable!(),
    }
}

// pages with these bytes
fn copied_pages(alloc: Global, sheets: &[Bytes], page: u32) -> Result<Vec<PagePart>, NoMemory>
    requires { (p : ℕ) → p < length sheets.now → length (slice_index_or sheets.now p []) ≡ page }
    ensures { IfOk result (λ list. list.items ≡ sheets.now) }
{
    let mut list = Vec::with_capacity(alloc, sheets.len())?;
    for p in 0..sheets.len() {
        list.push(PagePart::holding(alloc, sheets[p].lent())?)?;
    }
    Ok(list)
}

// the devices among these parts
fn loaded_devices(alloc: Global, desc: &Desc, parts: &[Part]) -> Result<Vec<DevPart>, NoMemory>
    requires { AreLoaded desc.now parts.now }
    ensures { IfOk result (λ list. list.items
        ≡ listed (device_count desc.now) (λ d. staged_dev (shape_at desc.now d) (device_of (loaded parts.now) d))) }
{
    let count = desc.devices.len();
    let mut list = Vec::with_capacity(alloc, count as usize)?;
    for d in 0..count {
        list.push(loaded_device(alloc, desc, parts, DeviceId(d as u8))?)?;
    }
    Ok(list)
}

// device d among these parts
fn loaded_device(
    alloc: Global,
    desc: &Desc,
    parts: &[Part],
    d: DeviceId,
) -> Result<DevPart, NoMemory>
    requires loaded { AreLoaded desc.now parts.now }
    requires device { d < device_count desc.now }
    ensures { IfOk result (λ part. part ≡ staged_dev (shape_at desc.now d) (device_of (loaded parts.now) d)) }
{
    match &parts[usize::from(d.0) + 1] {
        Part::Device {
            bar,
            buf,
            counts,
            pending,
        } => DevPart::staged(alloc, desc, d, bar.lent(), *counts, pending.lent(), buf),
        Part::Pages(_) => unreachable!(),
    }
}
