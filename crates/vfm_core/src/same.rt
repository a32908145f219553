//! Whether two cores have the same machine.

ghost use Rattle.std.specs.Prelude.{◌≡◌, ◌↔◌, map, IsTrue};
ghost use Rattle.vfm_core.specs.Machines.{machine_in, plain_of};

use crate::Core;
use vfm_device_part::{DevPart, PagePart};
use vfm_plain::same_bytes;

impl Core {
    /// Whether both have the same plain machine: the same pages, BARs, buffers, counts and pending requests. How far their
    /// moves have come plays no part.
    pub fn same(&self, other: &Core) -> bool
        ensures { IsTrue result ↔ (machine_in self.now.world ≡ machine_in other.now.world) }
    {
        same_pages(self.pages.as_slice(), other.pages.as_slice())
            && same_devices(self.devices.as_slice(), other.devices.as_slice())
    }
}

// whether both are the same pages
fn same_pages(one: &[PagePart], other: &[PagePart]) -> bool
    ensures { IsTrue result ↔ (one.now ≡ other.now) }
{
    if one.len() != other.len() {
        return false;
    }
    for p in 0..one.len() {
        let page = &one[p];
        if !same_bytes(page.bytes(), other[p].bytes()) {
            return false;
        }
    }
    true
}

// whether both have the same plain devices
fn same_devices(one: &[DevPart], other: &[DevPart]) -> bool
    ensures { IsTrue result ↔ (map plain_of one.now ≡ map plain_of other.now) }
{
    if one.len() != other.len() {
        return false;
    }
    for d in 0..one.len() {
        let device = &one[d];
        if !same_device(device, &other[d]) {
            return false;
        }
    }
    true
}

// whether both have the same plain state
fn same_device(one: &DevPart, other: &DevPart) -> bool
    ensures { IsTrue result ↔ (one.now.plain ≡ other.now.plain) }
{
    if !same_bytes(one.bar(), other.bar()) {
        return false;
    }
    if !same_requests(one.pending(), other.pending()) {
        return false;
    }
    if !same_bytes(one.buf(), other.buf()) {
        return false;
    }
    let (accepted, done, lost) = one.counts();
    let (other_accepted, other_done, other_lost) = other.counts();
    if accepted != other_accepted {
        return false;
    }
    if done != other_done {
        return false;
    }
    lost == other_lost
}

// whether both are the same requests
fn same_requests(one: &[(u32, u32)], other: &[(u32, u32)]) -> bool
    ensures { IsTrue result ↔ (one.now ≡ other.now) }
{
    one == other
}
