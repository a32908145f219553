//! The records that close the streams, one stream after the other.

ghost use Rattle.std.specs.Prelude.{◌≡◌, ℕ, List, Option, OnOk, OnErr};
ghost use Rattle.vfm_types.specs.declared.desc.Desc.{Desc as Description};
ghost use Rattle.vfm_types.specs.Desc.{device_count};
ghost use Rattle.vfm_types.specs.Valid.{IsValid};
ghost use Rattle.vfm_plain.specs.Shape.{IsSound};
ghost use Rattle.vfm_streams.specs.Sent.{Sent, with_all_closed, with_devices_closed};
ghost use Rattle.vfm_outlets.specs.Carrying.{Carries, all_failed, links_of};
ghost use Rattle.vfm_closing.specs.Closing.{CarriesPart, HasRoom, most_closing};

use crate::device::{put_config, put_device_closed};
use vfm_outlets::Outlets;
use vfm_outside::Link;
use vfm_plain::Plain;
use vfm_types::{Desc, DeviceId, NoMemory};

// Puts the records that close the streams of all devices, in rising order. When memory runs out some of the first of them
// are put.
fn put_devices<L: Link>(
    desc: &Desc,
    joint: &Plain,
    outlets: &mut Outlets<L>,
) -> Result<(), NoMemory>
    requires valid { IsValid desc.now }
    requires sound { IsSound desc.now joint.now }
    requires room { HasRoom L.sent 120 outlets.old }
    ensures put { (D : Description) (starts : List (Option (List ℕ))) (all : List Sent) → Carries L.sent D starts all outlets.old
        → OnOk result (Carries L.sent D starts (with_devices_closed desc.now joint.now (device_count desc.now) all) outlets.new) }
    ensures part { (D : Description) (starts : List (Option (List ℕ))) (all : List Sent) → Carries L.sent D starts all outlets.old
        → OnErr result (CarriesPart L.sent D starts (with_devices_closed desc.now joint.now (device_count desc.now) all) outlets.new) }
    ensures links { links_of outlets.new ≡ links_of outlets.old }
    ensures failed { all_failed outlets.new ≡ all_failed outlets.old }
{
    for d in 0..desc.devices.len() {
        put_device_closed(desc, joint, outlets, DeviceId(d as u8))?;
    }
    Ok(())
}

/// Puts the records that close every stream, memory's first and then those of the devices in rising order, behind all that
/// was put: of the machine at the joint stop. When memory runs out some of the first of them are put.
pub fn put_closed<L: Link>(
    desc: &Desc,
    joint: &Plain,
    outlets: &mut Outlets<L>,
) -> Result<(), NoMemory>
    requires valid { IsValid desc.now }
    requires sound { IsSound desc.now joint.now }
    requires room { HasRoom L.sent most_closing outlets.old }
    ensures put { (D : Description) (starts : List (Option (List ℕ))) (all : List Sent) → Carries L.sent D starts all outlets.old
        → OnOk result (Carries L.sent D starts (with_all_closed desc.now joint.now all) outlets.new) }
    ensures part { (D : Description) (starts : List (Option (List ℕ))) (all : List Sent) → Carries L.sent D starts all outlets.old
        → OnErr result (CarriesPart L.sent D starts (with_all_closed desc.now joint.now all) outlets.new) }
    ensures links { links_of outlets.new ≡ links_of outlets.old }
    ensures failed { all_failed outlets.new ≡ all_failed outlets.old }
{
    put_config(desc, outlets, 0)?;
    put_devices(desc, joint, outlets)
}
