//! Deliveries, each on the cell of its device and on that of its target.

ghost use Rattle.std.specs.Prelude.{◌≡◌, ◌<◌, ◌==◌, false, Some};
ghost use Rattle.vfm_types.specs.declared.entry.Entry.TheVariants.{Deliver};
ghost use Rattle.vfm_types.specs.declared.job.Region.TheVariants.{Bar, Page};
ghost use Rattle.vfm_types.specs.Desc.{device_count};
ghost use Rattle.vfm_types.specs.Valid.{IsValid};
ghost use Rattle.vfm_parts.specs.Fits.{DevFits};
ghost use Rattle.vfm_cells.specs.Cells.{dev_number, dev_or_none, device_cell, page_number, region_number};
ghost use Rattle.vfm_cells.specs.CellFits.{CellFits};
ghost use Rattle.vfm_device_part.specs.DeviceSteps.{IsTarget, target_in};
ghost use Rattle.vfm_cell_steps.specs.Made.{IsDelivered};

use crate::part::{Kind, Part};
use vfm_device_part::{DevPart, step_to_device, step_to_page};
use vfm_types::{Desc, DeviceId, Entry, Region};

/// Delivers request `n` of device `d`, in whose cell `own` lies, to the region at which it is aimed, in whose cell `target`
/// lies. Takes no memory.
pub fn step_across(
    desc: &Desc,
    d: DeviceId,
    n: u32,
    own: &mut Part,
    region: Region,
    target: &mut Part,
)
    requires valid { IsValid desc.now }
    requires device { d < device_count desc.now }
    requires fits { CellFits desc.now (dev_number d) own.old }
    requires aimed { target_in desc.now d n (dev_or_none own.old) ≡ Some region }
    requires there { IsTarget desc.now d region }
    requires target_fits { CellFits desc.now (region_number desc.now region) target.old }
    ensures step { IsDelivered desc.now d n region own.old target.old own.new target.new }
    ensures fits { CellFits desc.now (dev_number d) own.new }
    ensures target_fits { CellFits desc.now (region_number desc.now region) target.new }
{
    match &mut own.kind {
        Kind::Device(issuer) => match region {
            Region::Page(p) => reach_page(desc, d, n, issuer, p, target),
            Region::Bar(t) => reach_device(desc, d, n, issuer, t, target),
        },
        _ => unreachable!(),
    }
}

#[tactic(auto, using(crate::proofs::Deliveries::fine_of, crate::proofs::Deliveries::to_page))]
// the same, at page p, where the device's part is given
fn reach_page(desc: &Desc, d: DeviceId, n: u32, issuer: &mut DevPart, p: u32, target: &mut Part)
    requires valid { IsValid desc.now }
    requires device { d < device_count desc.now }
    requires fits { DevFits desc.now d issuer.old }
    requires aimed { target_in desc.now d n issuer.old ≡ Some (Page p) }
    requires there { p < desc.now.pages }
    requires target_fits { CellFits desc.now (page_number desc.now p) target.old }
    ensures step { IsDelivered desc.now d n (Page p) (device_cell issuer.old) target.old (device_cell issuer.new) target.new }
    ensures fits { DevFits desc.now d issuer.new }
    ensures target_fits { CellFits desc.now (page_number desc.now p) target.new }
{
    match &mut target.kind {
        Kind::Page(page) => match step_to_page(desc, d, issuer, p, page, Entry::Deliver { d, n }) {
            Ok(()) => (),
            Err(_) => unreachable!(),
        },
        _ => unreachable!(),
    }
}

#[tactic(auto, using(crate::proofs::Deliveries::fine_of, crate::proofs::Deliveries::to_device))]
// the same, at the BARs of device t
fn reach_device(
    desc: &Desc,
    d: DeviceId,
    n: u32,
    issuer: &mut DevPart,
    t: DeviceId,
    target: &mut Part,
)
    requires valid { IsValid desc.now }
    requires device { d < device_count desc.now }
    requires fits { DevFits desc.now d issuer.old }
    requires aimed { target_in desc.now d n issuer.old ≡ Some (Bar t) }
    requires there { t < device_count desc.now }
    requires other { (t == d) ≡ false }
    requires target_fits { CellFits desc.now (dev_number t) target.old }
    ensures step { IsDelivered desc.now d n (Bar t) (device_cell issuer.old) target.old (device_cell issuer.new) target.new }
    ensures fits { DevFits desc.now d issuer.new }
    ensures target_fits { CellFits desc.now (dev_number t) target.new }
{
    match &mut target.kind {
        Kind::Device(peer) => match step_to_device(
            desc,
            d,
            issuer,
            t,
            peer,
            Entry::Deliver { d, n },
        ) {
            Ok(()) => (),
            Err(_) => unreachable!(),
        },
        _ => unreachable!(),
    }
}
