//! Deliveries: the step of a device on its part and on that of its request's target.

ghost use Rattle.std.specs.Prelude.{◌≡◌, ◌<◌, ◌==◌, [], None, Some, false, slice_index_or, MatchResult, OnErr, OnOk};
ghost use Rattle.vfm_types.specs.declared.entry.Entry.TheVariants.{Deliver};
ghost use Rattle.vfm_types.specs.declared.job.Region.TheVariants.{Bar, Page};
ghost use Rattle.vfm_types.specs.Desc.{device_count};
ghost use Rattle.vfm_types.specs.Valid.{IsValid};
ghost use Rattle.vfm_parts.specs.DeliverStep.{devs_after_deliver, job_in, pages_after_deliver, region_of_job};
ghost use Rattle.vfm_parts.specs.Parts.{Lead, listed, parts_in};
ghost use Rattle.vfm_device_part.specs.DeviceSteps.{IsAimed, IsTarget, own_fault};
ghost use Rattle.vfm_lead.specs.LeadSteps.{DevsFit, dev_of_list};
ghost use Rattle.vfm_core.specs.CoreState.{PagesFit, world_with};
ghost use Rattle.vfm_core.specs.Delivered.{with_delivered, with_page_written, with_struck};

use vfm_device_part::{DevPart, Guard, PagePart, step_to_device, step_to_page};
use vfm_lead::device;
use vfm_types::{Desc, DeviceId, Entry, Region, Rule};

/// Delivers request `n` of device `d`. `Guard` exactly where it doesn't wait for its delivery; all is then as before.
pub fn deliver(
    desc: &Desc,
    devices: &mut [DevPart],
    pages: &mut [PagePart],
    d: DeviceId,
    n: u32,
) -> Result<(), Guard>
    requires valid { IsValid desc.now }
    requires devices { DevsFit desc.now devices.old }
    requires pages { PagesFit desc.now pages.old }
    requires device { d < device_count desc.now }
    ensures guard { MatchResult result (λ _. own_fault desc.now (Deliver d n) (dev_of_list devices.old d) ≡ None)
        (λ guard. own_fault desc.now (Deliver d n) (dev_of_list devices.old d) ≡ Some guard.0) }
    ensures devices { (lead : Lead) → OnOk result (devices.new ≡ listed (device_count desc.now)
        (devs_after_deliver desc.now (parts_in (world_with lead devices.old pages.old)) d n)) }
    ensures pages { (lead : Lead) → OnOk result (pages.new ≡ listed desc.now.pages
        (pages_after_deliver desc.now (parts_in (world_with lead devices.old pages.old)) d n)) }
    ensures same { OnErr result ((devices.new ≡ devices.old) × (pages.new ≡ pages.old)) }
{
    match device(devices, d).target(desc, d, n) {
        Some(region) => reach(desc, devices, pages, d, n, region),
        None => Err(Guard(Rule::Turn)),
    }
}

// delivers request n of device d, which is aimed at this region
fn reach(
    desc: &Desc,
    devices: &mut [DevPart],
    pages: &mut [PagePart],
    d: DeviceId,
    n: u32,
    region: Region,
) -> Result<(), Guard>
    requires valid { IsValid desc.now }
    requires devices { DevsFit desc.now devices.old }
    requires pages { PagesFit desc.now pages.old }
    requires device { d < device_count desc.now }
    requires aimed { region_of_job desc.now (job_in desc.now d n (dev_of_list devices.old d)) ≡ region }
    requires there { IsTarget desc.now d region }
    ensures guard { MatchResult result (λ _. own_fault desc.now (Deliver d n) (dev_of_list devices.old d) ≡ None)
        (λ guard. own_fault desc.now (Deliver d n) (dev_of_list devices.old d) ≡ Some guard.0) }
    ensures devices { (lead : Lead) → OnOk result (devices.new ≡ listed (device_count desc.now)
        (devs_after_deliver desc.now (parts_in (world_with lead devices.old pages.old)) d n)) }
    ensures pages { (lead : Lead) → OnOk result (pages.new ≡ listed desc.now.pages
        (pages_after_deliver desc.now (parts_in (world_with lead devices.old pages.old)) d n)) }
    ensures same { OnErr result ((devices.new ≡ devices.old) × (pages.new ≡ pages.old)) }
{
    match region {
        Region::Page(p) => to_page(desc, devices, pages, d, n, p),
        Region::Bar(t) => to_device(desc, devices, d, n, t),
    }
}

// delivers request n of device d, which is aimed at page p
fn to_page(
    desc: &Desc,
    devices: &mut [DevPart],
    pages: &mut [PagePart],
    d: DeviceId,
    n: u32,
    p: u32,
) -> Result<(), Guard>
    requires valid { IsValid desc.now }
    requires devices { DevsFit desc.now devices.old }
    requires pages { PagesFit desc.now pages.old }
    requires device { d < device_count desc.now }
    requires page { p < desc.now.pages }
    requires aimed { IsAimed desc.now (Deliver d n) (dev_of_list devices.old d) (Page p) }
    ensures guard { MatchResult result (λ _. own_fault desc.now (Deliver d n) (dev_of_list devices.old d) ≡ None)
        (λ guard. own_fault desc.now (Deliver d n) (dev_of_list devices.old d) ≡ Some guard.0) }
    ensures devices { OnOk result (devices.new ≡ with_delivered desc.now d n (slice_index_or pages.old p []) devices.old) }
    ensures pages { OnOk result (pages.new ≡ with_page_written desc.now d n p (dev_of_list devices.old d) pages.old) }
    ensures same { OnErr result ((devices.new ≡ devices.old) × (pages.new ≡ pages.old)) }
{
    let own = &mut devices[usize::from(d.0)];
    step_to_page(
        desc,
        d,
        own,
        p,
        &mut pages[p as usize],
        Entry::Deliver { d, n },
    )
}

// delivers request n of device d, which is aimed at the BARs of device t
fn to_device(
    desc: &Desc,
    devices: &mut [DevPart],
    d: DeviceId,
    n: u32,
    t: DeviceId,
) -> Result<(), Guard>
    requires valid { IsValid desc.now }
    requires devices { DevsFit desc.now devices.old }
    requires device { d < device_count desc.now }
    requires target { t < device_count desc.now }
    requires other { (t == d) ≡ false }
    requires aimed { IsAimed desc.now (Deliver d n) (dev_of_list devices.old d) (Bar t) }
    ensures guard { MatchResult result (λ _. own_fault desc.now (Deliver d n) (dev_of_list devices.old d) ≡ None)
        (λ guard. own_fault desc.now (Deliver d n) (dev_of_list devices.old d) ≡ Some guard.0) }
    ensures devices { OnOk result (devices.new ≡ with_struck desc.now d n t devices.old) }
    ensures same { OnErr result (devices.new ≡ devices.old) }
{
    if d.0 < t.0 {
        to_later(desc, devices, d, n, t)
    } else {
        to_earlier(desc, devices, d, n, t)
    }
}

// the same, where t comes after d
fn to_later(
    desc: &Desc,
    devices: &mut [DevPart],
    d: DeviceId,
    n: u32,
    t: DeviceId,
) -> Result<(), Guard>
    requires valid { IsValid desc.now }
    requires devices { DevsFit desc.now devices.old }
    requires target { t < device_count desc.now }
    requires later { d < t }
    requires aimed { IsAimed desc.now (Deliver d n) (dev_of_list devices.old d) (Bar t) }
    ensures guard { MatchResult result (λ _. own_fault desc.now (Deliver d n) (dev_of_list devices.old d) ≡ None)
        (λ guard. own_fault desc.now (Deliver d n) (dev_of_list devices.old d) ≡ Some guard.0) }
    ensures devices { OnOk result (devices.new ≡ with_struck desc.now d n t devices.old) }
    ensures same { OnErr result (devices.new ≡ devices.old) }
{
    let (low, high) = devices.split_at_mut(usize::from(t.0));
    let own = &mut low[usize::from(d.0)];
    step_to_device(desc, d, own, t, &mut high[0], Entry::Deliver { d, n })
}

// the same, where t comes before d
fn to_earlier(
    desc: &Desc,
    devices: &mut [DevPart],
    d: DeviceId,
    n: u32,
    t: DeviceId,
) -> Result<(), Guard>
    requires valid { IsValid desc.now }
    requires devices { DevsFit desc.now devices.old }
    requires device { d < device_count desc.now }
    requires earlier { t < d }
    requires aimed { IsAimed desc.now (Deliver d n) (dev_of_list devices.old d) (Bar t) }
    ensures guard { MatchResult result (λ _. own_fault desc.now (Deliver d n) (dev_of_list devices.old d) ≡ None)
        (λ guard. own_fault desc.now (Deliver d n) (dev_of_list devices.old d) ≡ Some guard.0) }
    ensures devices { OnOk result (devices.new ≡ with_struck desc.now d n t devices.old) }
    ensures same { OnErr result (devices.new ≡ devices.old) }
{
    let (low, high) = devices.split_at_mut(usize::from(d.0));
    let target = &mut low[usize::from(t.0)];
    step_to_device(desc, d, &mut high[0], t, target, Entry::Deliver { d, n })
}
