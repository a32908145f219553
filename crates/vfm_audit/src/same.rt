//! Whether a printed state is a machine.

ghost use Rattle.std.specs.Prelude.{◌≡◌, ◌↔◌, ◌<◌, ◌≤◌, length, IfOk, IfSome, IsTrue, Some};
ghost use Rattle.vfm_types.specs.Deliveries.{delivers};
ghost use Rattle.vfm_types.specs.Machine.{device_of};
ghost use Rattle.vfm_types.specs.Requests.{plain};
ghost use Rattle.vfm_report.specs.Printed.{IsPrintedState};
ghost use Rattle.vfm_audit.specs.Steps.{HasItsParts};

use crate::steps::machine_of;
use std::alloc::Global;
use vfm_core::Core;
use vfm_plain::{Plain, Sheet, same_bytes};
use vfm_report::{PrintedDevice, PrintedState};
use vfm_types::{DeviceId, NoMemory};

/// Whether the printed state, if there is one, is the machine of what the core delivered.
pub fn shows(alloc: Global, core: &Core, printed: Option<&PrintedState>) -> Result<bool, NoMemory>
    requires parts { HasItsParts core.now }
    requires printed { IfSome printed (λ m. IsPrintedState core.now.desc m.now) }
    ensures { IfOk result (λ same. IsTrue same ↔ IfSome printed.entry (λ m. plain core.now.desc (delivers core.now.entries) ≡ Some m.now)) }
{
    let Some(printed) = printed else {
        return Ok(true);
    };
    let machine = machine_of(alloc, core)?;
    Ok(is_state(&machine, printed))
}

// whether the printed state is this machine
fn is_state(machine: &Plain, printed: &PrintedState) -> bool
    requires pages { length printed.now.pages ≡ length machine.now.pages }
    requires devices { length printed.now.devices ≡ length machine.now.devices }
    requires few_pages { length machine.now.pages ≤ 1024 }
    requires few_devices { length machine.now.devices ≤ 8 }
    ensures { IsTrue result ↔ (machine.now ≡ printed.now) }
{
    has_pages(machine, printed.pages()) && has_devices(machine, printed.devices())
}

// whether these are the machine's pages
fn has_pages(machine: &Plain, pages: &[Sheet]) -> bool
    requires count { length pages.now ≡ length machine.now.pages }
    requires few { length machine.now.pages ≤ 1024 }
    ensures { IsTrue result ↔ (machine.now.pages ≡ pages.now) }
{
    for p in 0..pages.len() {
        if !same_bytes(machine.page(p as u32), pages[p].bytes()) {
            return false;
        }
    }
    true
}

// whether these are the machine's devices
fn has_devices(machine: &Plain, devices: &[PrintedDevice]) -> bool
    requires count { length devices.now ≡ length machine.now.devices }
    requires few { length machine.now.devices ≤ 8 }
    ensures { IsTrue result ↔ (machine.now.devices ≡ devices.now) }
{
    for d in 0..devices.len() {
        if !is_device(machine, DeviceId(d as u8), &devices[d]) {
            return false;
        }
    }
    true
}

// whether this is the machine's device d
fn is_device(machine: &Plain, d: DeviceId, device: &PrintedDevice) -> bool
    requires there { d < length machine.now.devices }
    ensures { IsTrue result ↔ (device_of machine.now d ≡ device.now) }
{
    if !same_bytes(machine.bar(d), device.bar()) {
        return false;
    }
    if !same_requests(machine.pending(d), device.pending()) {
        return false;
    }
    if !same_bytes(machine.buf(d).as_slice(), device.buf()) {
        return false;
    }
    let (accepted, done, lost) = machine.counts(d);
    let (printed_accepted, printed_done, printed_lost) = device.counts();
    if accepted != printed_accepted {
        return false;
    }
    if done != printed_done {
        return false;
    }
    lost == printed_lost
}

// whether both are the same requests
fn same_requests(one: &[(u32, u32)], other: &[(u32, u32)]) -> bool
    ensures { IsTrue result ↔ (one.now ≡ other.now) }
{
    one == other
}
