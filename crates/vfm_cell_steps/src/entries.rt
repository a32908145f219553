//! Which entries a machine has.

ghost use Rattle.std.specs.Prelude.{◌≡◌, ◌&&◌, nat_lt};
ghost use Rattle.vfm_types.specs.Desc.{block_count, device_count, shape_at};
ghost use Rattle.vfm_plain.specs.Legal.{is_entry_of};

use vfm_types::{Desc, DeviceId, Entry};

// the machine has device d
fn has_device(desc: &Desc, d: DeviceId) -> bool
    ensures { result ≡ nat_lt d (device_count desc.now) }
{
    u32::from(d.0) < desc.devices.len()
}

// the machine has block b of device d
fn has_block(desc: &Desc, d: DeviceId, b: u32) -> bool
    ensures { result ≡ (nat_lt d (device_count desc.now) && nat_lt b (block_count (shape_at desc.now d))) }
{
    u32::from(d.0) < desc.devices.len() && b < desc.devices.at(u32::from(d.0)).bar_bytes() / 64
}

/// Whether the entry names a device, a page and a block that the described machine has.
pub fn has_entry(desc: &Desc, e: &Entry) -> bool
    ensures { result ≡ is_entry_of desc.now e.now }
{
    match *e {
        Entry::Issue { d, n: _ } => has_device(desc, d),
        Entry::Deliver { d, n: _ } => has_device(desc, d),
        Entry::Complete { d, n: _ } => has_device(desc, d),
        Entry::Hold { d, to: _ } => has_device(desc, d),
        Entry::Arc { d, to: _ } => has_device(desc, d),
        Entry::Fail { d, to: _ } => has_device(desc, d),
        Entry::Report { d } => has_device(desc, d),
        Entry::Copy { p } => p < desc.pages,
        Entry::Block { d, b } => has_block(desc, d, b),
        Entry::Dry { d } => has_device(desc, d),
        _ => true,
    }
}
