//! The steps of a device on the parts that they touch: its own, and the page or the device that a delivery is aimed at.

ghost use Rattle.std.specs.Prelude.{◌≡◌, ◌<◌, None, Some, true, false, MatchResult, OnErr, OnOk};
ghost use Rattle.vfm_types.specs.declared.job.Region.TheVariants.{Bar, Page};
ghost use Rattle.vfm_types.specs.Desc.{device_count};
ghost use Rattle.vfm_types.specs.declared.entry.Rule.TheVariants.{Turn};
ghost use Rattle.vfm_types.specs.Outstanding.{is_undelivered};
ghost use Rattle.vfm_types.specs.Valid.{IsValid};
ghost use Rattle.vfm_parts.specs.Fits.{DevFits, PageFits};
ghost use Rattle.vfm_parts.specs.DeliverStep.{delivered_dev, job_in, page_after_job, region_of_job, struck_dev};
ghost use Rattle.vfm_device_part.specs.DeviceSteps.{IsAimed, delivered_job, is_delivery_of, is_own_of, issuer_after, own_after, own_fault};

use crate::page::PagePart;
use crate::part::DevPart;
use vfm_types::{Desc, DeviceId, Entry, Rule};

/// The first rule that an entry breaks.
#[derive(Clone, Copy, Debug, PartialEq, Eq)]
pub struct Guard(pub Rule);

/// Makes an Issue or a Complete of device `d` on its part.
///
/// `Guard` exactly where the entry breaks a rule, with the first one; then the part is as before. Takes no memory.
pub fn step_own(desc: &Desc, d: DeviceId, own: &mut DevPart, e: Entry) -> Result<(), Guard>
    requires valid { IsValid desc.now }
    requires device { d < device_count desc.now }
    requires fits { DevFits desc.now d own.old }
    requires entry { is_own_of d e ≡ true }
    ensures guard { MatchResult result (λ _. own_fault desc.now e own.old ≡ None)
        (λ guard. own_fault desc.now e own.old ≡ Some guard.0) }
    ensures done { OnOk result (own.new ≡ own_after desc.now e own.old) }
    ensures same { OnErr result (own.new ≡ own.old) }
    ensures fits { DevFits desc.now d own.new }
{
    match e {
        Entry::Issue { n, .. } => own.issue(desc, d, n).map_err(Guard),
        Entry::Complete { n, .. } => own.complete(desc, d, n).map_err(Guard),
        _ => unreachable!(),
    }
}

/// Makes a Deliver of device `d` on its part and on that of device `t`, at whose BARs its job is aimed.
///
/// `Guard` exactly where the entry breaks a rule, with the first one; then both parts are as before. Takes no memory.
pub fn step_to_device(
    desc: &Desc,
    d: DeviceId,
    own: &mut DevPart,
    t: DeviceId,
    target: &mut DevPart,
    e: Entry,
) -> Result<(), Guard>
    requires valid { IsValid desc.now }
    requires device { d < device_count desc.now }
    requires fits { DevFits desc.now d own.old }
    requires target { t < device_count desc.now }
    requires target_fits { DevFits desc.now t target.old }
    requires entry { is_delivery_of d e ≡ true }
    requires aimed { IsAimed desc.now e own.old (Bar t) }
    ensures guard { MatchResult result (λ _. own_fault desc.now e own.old ≡ None)
        (λ guard. own_fault desc.now e own.old ≡ Some guard.0) }
    ensures own { OnOk result (own.new ≡ issuer_after desc.now e target.old.plain.bar own.old) }
    ensures target { OnOk result
        (target.new ≡ struck_dev desc.now t (delivered_job desc.now e own.old) own.old.plain.buf target.old) }
    ensures same { OnErr result ((own.new ≡ own.old) × (target.new ≡ target.old)) }
    ensures fits { DevFits desc.now d own.new }
    ensures target_fits { DevFits desc.now t target.new }
{
    match e {
        Entry::Deliver { n, .. } => deliver_to_device(desc, d, own, t, target, n).map_err(Guard),
        _ => unreachable!(),
    }
}

/// Makes a Deliver of device `d` on its part and on that of page `p`, at which its job is aimed.
///
/// `Guard` exactly where the entry breaks a rule, with the first one; then both parts are as before. Takes no memory.
pub fn step_to_page(
    desc: &Desc,
    d: DeviceId,
    own: &mut DevPart,
    p: u32,
    page: &mut PagePart,
    e: Entry,
) -> Result<(), Guard>
    requires valid { IsValid desc.now }
    requires device { d < device_count desc.now }
    requires fits { DevFits desc.now d own.old }
    requires page_fits { PageFits desc.now page.old }
    requires entry { is_delivery_of d e ≡ true }
    requires aimed { IsAimed desc.now e own.old (Page p) }
    ensures guard { MatchResult result (λ _. own_fault desc.now e own.old ≡ None)
        (λ guard. own_fault desc.now e own.old ≡ Some guard.0) }
    ensures own { OnOk result (own.new ≡ issuer_after desc.now e page.old own.old) }
    ensures page { OnOk result
        (page.new ≡ page_after_job desc.now (delivered_job desc.now e own.old) own.old.plain.buf page.old) }
    ensures same { OnErr result ((own.new ≡ own.old) × (page.new ≡ page.old)) }
    ensures fits { DevFits desc.now d own.new }
    ensures page_fits { PageFits desc.now page.new }
{
    match e {
        Entry::Deliver { n, .. } => deliver_to_page(desc, d, own, p, page, n).map_err(Guard),
        _ => unreachable!(),
    }
}

// delivers request n of device d to the BARs of device t
fn deliver_to_device(
    desc: &Desc,
    d: DeviceId,
    own: &mut DevPart,
    t: DeviceId,
    target: &mut DevPart,
    n: u32,
) -> Result<(), Rule>
    requires valid { IsValid desc.now }
    requires device { d < device_count desc.now }
    requires fits { DevFits desc.now d own.old }
    requires target { t < device_count desc.now }
    requires target_fits { DevFits desc.now t target.old }
    requires aimed { is_undelivered n own.old.requests ≡ true
        → region_of_job desc.now (job_in desc.now d n own.old) ≡ Bar t }
    ensures guard { MatchResult result (λ _. is_undelivered n own.old.requests ≡ true)
        (λ rule. (is_undelivered n own.old.requests ≡ false) × (rule ≡ Turn)) }
    ensures own { OnOk result (own.new ≡ delivered_dev desc.now d n target.old.plain.bar own.old) }
    ensures target { OnOk result
        (target.new ≡ struck_dev desc.now t (job_in desc.now d n own.old) own.old.plain.buf target.old) }
    ensures same { OnErr result ((own.new ≡ own.old) × (target.new ≡ target.old)) }
    ensures fits { DevFits desc.now d own.new }
    ensures target_fits { DevFits desc.now t target.new }
{
    if !own.is_undelivered(n) {
        return Err(Rule::Turn);
    }
    let job = own.job_of(desc, d, n);
    own.deliver(desc, d, n, job, target.bar());
    target.strike(desc, t, job, own.buf());
    Ok(())
}

// delivers request n of device d to a page
fn deliver_to_page(
    desc: &Desc,
    d: DeviceId,
    own: &mut DevPart,
    p: u32,
    page: &mut PagePart,
    n: u32,
) -> Result<(), Rule>
    requires valid { IsValid desc.now }
    requires device { d < device_count desc.now }
    requires fits { DevFits desc.now d own.old }
    requires page_fits { PageFits desc.now page.old }
    requires aimed { is_undelivered n own.old.requests ≡ true
        → region_of_job desc.now (job_in desc.now d n own.old) ≡ Page p }
    ensures guard { MatchResult result (λ _. is_undelivered n own.old.requests ≡ true)
        (λ rule. (is_undelivered n own.old.requests ≡ false) × (rule ≡ Turn)) }
    ensures own { OnOk result (own.new ≡ delivered_dev desc.now d n page.old own.old) }
    ensures page { OnOk result
        (page.new ≡ page_after_job desc.now (job_in desc.now d n own.old) own.old.plain.buf page.old) }
    ensures same { OnErr result ((own.new ≡ own.old) × (page.new ≡ page.old)) }
    ensures fits { DevFits desc.now d own.new }
    ensures page_fits { PageFits desc.now page.new }
{
    if !own.is_undelivered(n) {
        return Err(Rule::Turn);
    }
    let job = own.job_of(desc, d, n);
    own.deliver(desc, d, n, job, page.bytes());
    page.strike(desc, job, own.buf());
    Ok(())
}
