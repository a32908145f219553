//! The parts of the machine as described, and the room of a run.

ghost use Rattle.std.specs.Prelude.{◌≡◌, ◌+◌, ◌≤◌, map, replicate, IfOk};
ghost use Rattle.std.specs.List.{sum_by};
ghost use Rattle.vfm_types.specs.Desc.{all_budgets, block_count};
ghost use Rattle.vfm_types.specs.Valid.{IsValid};
ghost use Rattle.vfm_parts.specs.Start.{first_dev};
ghost use Rattle.vfm_parts_laws.specs.EntriesLeft.{room_of_run};

use std::alloc::Global;
use vfm_device_part::{DevPart, PagePart};
use vfm_types::{Desc, DeviceId, NoMemory};

/// The devices as described.
pub fn described_devices(alloc: Global, desc: &Desc) -> Result<Vec<DevPart>, NoMemory>
    requires { IsValid desc.now }
    ensures { IfOk result (λ list. list.items ≡ map first_dev desc.now.devices) }
{
    let count = desc.devices.len();
    let mut list = Vec::with_capacity(alloc, count as usize)?;
    for d in 0..count {
        list.push(DevPart::of(alloc, desc, DeviceId(d as u8))?)?;
    }
    Ok(list)
}

/// So many pages of so many zeros.
pub fn zero_pages(alloc: Global, pages: u32, page: u32) -> Result<Vec<PagePart>, NoMemory>
    ensures { IfOk result (λ list. list.items ≡ replicate pages (replicate page 0)) }
{
    let mut list = Vec::with_capacity(alloc, pages as usize)?;
    for _p in 0..pages {
        list.push(PagePart::of(alloc, page)?)?;
    }
    Ok(list)
}

// the requests that all devices together may accept
fn all_budgets(desc: &Desc) -> u64
    requires { IsValid desc.now }
    ensures value { result ≡ all_budgets desc.now }
    ensures few { result ≤ 400000 }
{
    let mut sum = 0;
    for d in 0..desc.devices.len() {
        sum += u64::from(desc.devices.at(d).budget);
    }
    sum
}

// two more than the blocks of each device, summed over all
fn all_blocks(desc: &Desc) -> u64
    requires { IsValid desc.now }
    ensures value { result ≡ sum_by (λ shape. block_count shape + 2) desc.now.devices }
    ensures few { result ≤ 8208 }
{
    let mut sum = 0;
    for d in 0..desc.devices.len() {
        sum += u64::from(desc.devices.at(d).bar_bytes() / 64) + 2;
    }
    sum
}

/// How many entries a run may make at most.
pub fn room_of_run(desc: &Desc) -> u64
    requires { IsValid desc.now }
    ensures { result ≡ room_of_run desc.now }
{
    let passes = u64::from(desc.rounds) + 1;
    let pass = 1 + u64::from(desc.pages) + all_blocks(desc);
    3 * all_budgets(desc) + passes * pass + 10 * u64::from(desc.devices.len()) + 4
}
