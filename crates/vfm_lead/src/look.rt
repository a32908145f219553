//! What can be seen of a move, read off its parts.

ghost use Rattle.std.specs.Prelude.{◌≡◌, ◌<◌, ◌≤◌, ◌||◌, ℕ, false, slice_index_or, IfSome, List};
ghost use Rattle.vfm_types.specs.declared.desc.Desc.{Desc};
ghost use Rattle.vfm_types.specs.declared.entry.Entry.{Entry};
ghost use Rattle.vfm_types.specs.Desc.{device_count};
ghost use Rattle.vfm_types.specs.Valid.{IsValid};
ghost use Rattle.vfm_parts.specs.Fits.{LeadFits};
ghost use Rattle.vfm_parts.specs.Parts.{parts_in};
ghost use Rattle.vfm_parts.specs.PartsOf.{world_of};
ghost use Rattle.vfm_parts_laws.specs.LooksIn.{due_block_in, due_copy_in, due_part_in, is_ready_in, look_in, next_arc_in};
ghost use Rattle.vfm_quiet.specs.declared.move_look.MoveLook.{MoveLook};
ghost use Rattle.vfm_quiet.specs.Seen.{no_look};
ghost use Rattle.vfm_order.specs.Alike.{IsAlike};
ghost use Rattle.vfm_order.specs.LookAfter.{look_after};
ghost use Rattle.vfm_lead.specs.LeadSteps.{AreSound, dev_of_list, parts_of};
ghost use Rattle.vfm_lead.specs.Shown.{Shows};

use crate::LeadPart;
use crate::arc_faults::is_quiet_for_arc;
use crate::devices::{count, device};
use vfm_device_part::DevPart;
use vfm_quiet::MoveLook;
use vfm_states::next_towards;
use vfm_types::{Desc, DevLook, DeviceId, MigState};

// what stands where no device is
const NO_DEVICE: DevLook = DevLook {
    state: MigState::Running,
    held: None,
    unissued: 0,
    undelivered: 0,
    delivered: 0,
    issued: 0,
    completes: 0,
    arcs: 0,
    blocked: None,
};

// what can be seen of each device
fn device_looks(desc: &Desc, lead: &LeadPart, devices: &[DevPart]) -> [DevLook; 8]
    requires { AreSound desc.now lead.now devices.now }
    ensures { (d : ℕ) → d < device_count desc.now → slice_index_or result d no_look ≡ look_in desc.now d (dev_of_list devices.now d) }
{
    let mut looks = [NO_DEVICE; 8];
    for d in 0..count(desc, devices) {
        looks[usize::from(d)] = device(devices, DeviceId(d)).look(desc, DeviceId(d));
    }
    looks
}

// the state to which device d takes its next arc
fn next_arc(desc: &Desc, lead: &LeadPart, device: &DevPart, d: DeviceId) -> MigState
    requires { d < device_count desc.now }
    ensures { result ≡ next_arc_in desc.now d lead.now device.now }
{
    let flags = desc.devices.at(u32::from(d.0)).flags;
    if lead.aborted() || lead.resumed() {
        return next_towards(device.state(), MigState::Running, flags);
    }
    match device.held() {
        Some(to) => to,
        None => next_towards(device.state(), MigState::StopCopy, flags),
    }
}

// everything is quiet enough for the next arc of device d
fn is_ready(desc: &Desc, lead: &LeadPart, devices: &[DevPart], d: DeviceId) -> bool
    requires sound { AreSound desc.now lead.now devices.now }
    requires device { d < device_count desc.now }
    ensures { result ≡ is_ready_in desc.now d (parts_of lead.now devices.now) }
{
    let to = next_arc(desc, lead, device(devices, d), d);
    is_quiet_for_arc(desc, devices, d, to)
}

// by device: everything is quiet enough for its next arc
fn ready(desc: &Desc, lead: &LeadPart, devices: &[DevPart]) -> [bool; 8]
    requires { AreSound desc.now lead.now devices.now }
    ensures { (d : ℕ) → d < device_count desc.now → slice_index_or result d false ≡ is_ready_in desc.now d (parts_of lead.now devices.now) }
{
    let mut ready = [false; 8];
    for d in 0..count(desc, devices) {
        ready[usize::from(d)] = is_ready(desc, lead, devices, DeviceId(d));
    }
    ready
}

// the page that is due
fn due_copy(lead: &LeadPart) -> Option<u32>
    ensures { result ≡ due_copy_in lead.now }
{
    if lead.aborted() || lead.resumed() {
        return None;
    }
    lead.next_copy()
}

// the device whose blocks are due
fn due_part(desc: &Desc, lead: &LeadPart) -> Option<DeviceId>
    requires { LeadFits desc.now lead.now }
    ensures value { result ≡ due_part_in desc.now lead.now }
    ensures inside { IfSome result (λ d. d < device_count desc.now) }
{
    if lead.aborted() || lead.resumed() {
        return None;
    }
    lead.next_part(desc)
}

// the block that it reads next
fn due_block(desc: &Desc, lead: &LeadPart, devices: &[DevPart]) -> Option<u32>
    requires { AreSound desc.now lead.now devices.now }
    ensures { result ≡ due_block_in desc.now (parts_of lead.now devices.now) }
{
    match due_part(desc, lead) {
        Some(d) => device(devices, d).next_block(),
        None => None,
    }
}

/// What can be seen of the move and of its devices, of which all are given, in their order.
pub fn look_of(desc: &Desc, lead: &LeadPart, devices: &[DevPart]) -> MoveLook
    requires { AreSound desc.now lead.now devices.now }
    ensures { Shows desc.now (parts_of lead.now devices.now) result }
{
    MoveLook {
        begun: lead.begun(),
        joint: lead.joint(),
        aborted: lead.aborted(),
        resumed: lead.resumed(),
        failed: lead.failed(),
        passes: lead.passes(),
        ended: lead.is_no_pass_open(desc),
        last: lead.last(),
        set: lead.set().copy(),
        next_copy: due_copy(lead),
        part: due_part(desc, lead),
        next_block: due_block(desc, lead, devices),
        reported: lead.reported().each(),
        devices: device_looks(desc, lead, devices),
        ready: ready(desc, lead, devices),
        count: count(desc, devices),
    }
}

/// A look that shows the parts of a list shows what the look after the list does.
pub fn looks_show_the_list()
    ensures { (D : Desc) (past : List Entry) (look : MoveLook) → IsValid D → Shows D (parts_in (world_of D past)) look
        → IsAlike look (look_after D past) }
{}
