//! The machine of a core, copied into a plain machine.

ghost use Rattle.std.specs.Prelude.{◌≡◌, ◌+◌, ◌<◌, ◌≤◌, ℕ, [], length, map, slice_index_or};
ghost use Rattle.vfm_types.specs.Machine.{device_of, with_device};
ghost use Rattle.vfm_plain.specs.Shape.{HasShape};
ghost use Rattle.vfm_parts.specs.Parts.{no_dev};
ghost use Rattle.vfm_core.specs.Copied.{IsRoomFor, grown_by};
ghost use Rattle.vfm_core.specs.Machines.{machine_in, plain_of};

use crate::Core;
use vfm_device_part::{DevPart, PagePart};
use vfm_plain::Plain;
use vfm_types::DeviceId;

impl Core {
    /// Makes a machine, which has the sizes of the description, equal to this core's. Takes no memory.
    pub fn copy_into(&self, into: &mut Plain)
        requires { HasShape self.now.desc into.old }
        ensures { into.new ≡ machine_in self.now.world }
    {
        copy_pages(self.pages.as_slice(), into);
        copy_devices(self.devices.as_slice(), into);
    }
}

// copies the pages
fn copy_pages(pages: &[PagePart], into: &mut Plain)
    requires count { length into.old.pages ≡ length pages.now }
    requires sizes { (p : ℕ) → p < length pages.now
        → length (slice_index_or into.old.pages p []) ≡ length (slice_index_or pages.now p []) }
    requires few { length pages.now ≤ 1024 }
    ensures { into.new ≡ record into.old { pages = pages.now } }
{
    for p in 0..pages.len() {
        into.set_page(p as u32, pages[p].bytes());
    }
}

// copies the plain state of each device
fn copy_devices(devices: &[DevPart], into: &mut Plain)
    requires count { length into.old.devices ≡ length devices.now }
    requires sizes { (d : ℕ) → d < length devices.now → IsRoomFor (slice_index_or devices.now d no_dev).plain (device_of into.old d) }
    requires few { length devices.now ≤ 8 }
    ensures { into.new ≡ record into.old { devices = map plain_of devices.now } }
{
    for d in 0..devices.len() {
        copy_device(&devices[d], DeviceId(d as u8), into);
    }
}

// copies the plain state of device d
fn copy_device(device: &DevPart, d: DeviceId, into: &mut Plain)
    requires there { d < length into.old.devices }
    requires room { IsRoomFor device.now.plain (device_of into.old d) }
    ensures { into.new ≡ with_device into.old d device.now.plain }
{
    let (_, done, lost) = device.counts();
    into.set_bar(d, device.bar());
    into.set_buf(d, device.buf());
    into.restart(d, done, lost);
    add_requests(into, d, device.pending());
}

// adds these requests after the pending ones of device d
fn add_requests(into: &mut Plain, d: DeviceId, pending: &[(u32, u32)])
    requires there { d < length into.old.devices }
    requires few { (device_of into.old d).accepted + length pending.now ≤ 50000 }
    ensures { into.new ≡ with_device into.old d (grown_by pending.now (device_of into.old d)) }
{
    for k in 0..pending.len() {
        let (number, job) = pending[k];
        into.add_pending(d, number, job);
    }
}
