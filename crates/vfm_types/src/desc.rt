//! The description of a machine and of its move.

ghost use Rattle.std.specs.Prelude.{[], ◌≡◌, ◌≢◌, ◌≤◌, ◌<◌, ◌*◌, ◌^◌, ℕ, Some, None, List, IfOk, IfErr, MatchResult, IsTrue, nat_eq, take, length};
ghost use Rattle.std.specs.List.{list_any};
ghost use Rattle.std.specs.Cmp.Lexicographic.{pointwise};
ghost use Rattle.vfm_types.specs.Desc.{bar_bytes, device_count, shape_at};
ghost use Rattle.vfm_types.specs.Region.{region_of, place_in_bar};
ghost use Rattle.vfm_types.specs.Job.{address_of, length_of, place_of, is_doorbell};
ghost use Rattle.vfm_types.specs.declared.desc.Desc.{Desc};
ghost use Rattle.vfm_types.specs.DescFault.{name_twice, is_bell_misused, job_fault, jobs_fault, devices_fault, lacks_p2p, form_fault};
ghost use Rattle.vfm_types.specs.Valid.{InRange, IsValid, is_job_in_range};

use crate::{
    Bars, DescFault, DeviceId, Flags, Job, Jobs, Name, NoMemory, Place, Queue, Region, Shapes,
};
use vfm_base::Duplicate;

// the address of device 0's BAR 0, how far the next device's BARs are from it, and how far the next BAR
const BAR_BASE: u64 = 0x1000_0000;

const DEVICE_STRIDE: u64 = 0x8_0000;

const BAR_STRIDE: u64 = 0x1_0000;

/// One device of a described machine.
#[derive(Debug, Drop)]
pub struct DevShape {
    pub name: Name,
    pub flags: Flags,
    /// The sizes of its BARs: each 64 to 65,536, a multiple of 64, and together at most 65,536.
    pub bars: Bars,
    /// How many requests may be outstanding at a time: 1 to 8.
    pub window: u8,
    /// Whether the device can tell peer-to-peer DMA from other DMA.
    pub tells: bool,
    /// How many requests it accepts in all: at most 50,000.
    pub budget: u32,
    /// Which of its arcs fails, counted from 1; 0 for none. At most 3.
    pub fails: u32,
    pub jobs: Jobs,
    pub queue: Queue,
}

impl DevShape {
    /// Bytes of all BARs of the device, which lie one after the other.
    pub fn bar_bytes(&self) -> u32
        ensures { result ≡ bar_bytes self.now }
    {
        self.bars.bytes()
    }

    /// An equal device.
    pub fn copy(&self) -> Result<DevShape, NoMemory>
        ensures { IfOk result (λ copy. copy ≡ self.now) }
    {
        self.duplicate()
    }
}

impl Duplicate for DevShape {
    fn duplicate(&self) -> Result<DevShape, NoMemory> {
        let jobs = self.jobs.copy()?;
        let queue = self.queue.copy()?;
        Ok(DevShape {
            name: self.name.copy(),
            flags: self.flags,
            bars: self.bars.copy(),
            window: self.window,
            tells: self.tells,
            budget: self.budget,
            fails: self.fails,
            jobs,
            queue,
        })
    }
}

/// A machine, its devices with their jobs, and the limits of its move.
#[derive(Debug, Drop)]
pub struct Desc {
    /// Names the move in packets and frames.
    pub session: u64,
    /// Bytes of a page: a power of two from 16 to 4,096.
    pub page: u32,
    /// Pages of memory: 1 to 1,024.
    pub pages: u32,
    /// Channels that device state is sent over: 1 to 8.
    pub channels: u32,
    /// The packet version.
    pub version: u16,
    /// How many requests each device completes before the move may begin: at most 50,000.
    pub begin: u32,
    /// The most copying passes before the devices are stopped: at most 8.
    pub rounds: u32,
    /// A pass over at most so many pages is the last before the devices are stopped: at most 1,024.
    pub threshold: u32,
    pub devices: Shapes,
}

impl Desc {
    /// The place of the `len` bytes from address `at`, or `None` exactly where they don't lie in one page or one BAR.
    /// `len` is 1 to 64.
    pub fn region_of(&self, at: u64, len: u32) -> Option<Place>
        requires in_range { InRange self.now }
        requires some { 1 ≤ len }
        requires few { len ≤ 64 }
        ensures { result ≡ region_of self.now at len }
    {
        let page = u64::from(self.page);
        let size = page * u64::from(self.pages);
        let offset = at % page;
        let len = u64::from(len);
        if len <= size && at <= size - len && offset + len <= page {
            return Some(Place {
                region: Region::Page((at / page) as u32),
                offset: offset as u32,
            });
        }
        self.bar_of(at, len)
    }

    // the place of the 1 to 64 bytes from an address where they lie in one BAR
    fn bar_of(&self, at: u64, len: u64) -> Option<Place>
        requires in_range { InRange self.now }
        requires some { 1 ≤ len }
        requires few { len ≤ 64 }
        ensures { result ≡ place_in_bar self.now at len }
    {
        if at < BAR_BASE {
            return None;
        }
        let owner = (at - BAR_BASE) / DEVICE_STRIDE;
        let number = (at - BAR_BASE) % DEVICE_STRIDE / BAR_STRIDE;
        let offset = (at - BAR_BASE) % BAR_STRIDE;
        if owner >= u64::from(self.devices.len()) {
            return None;
        }
        let bars = &self.devices.at(owner as u32).bars;
        if number >= u64::from(bars.len()) || offset + len > u64::from(bars.at(number as u32)) {
            return None;
        }
        Some(Place {
            region: Region::Bar(DeviceId(owner as u8)),
            offset: bars.before(number as u32) + offset as u32,
        })
    }

    /// The same description, if it is valid; its first fault, exactly where it isn't. Each number and list is in its
    /// range already. The faults in their order: a name that stands twice, least device; by device and job, a range
    /// that doesn't lie in one page or one BAR, a job aimed at its own device's BARs, and one that touches a doorbell
    /// otherwise than by ringing it; a device without the peer-to-peer states among several. Takes no memory.
    pub fn new(desc: Desc) -> Result<Desc, DescFault>
        requires { InRange desc }
        ensures cases { MatchResult result (λ d. form_fault desc ≡ None) (λ fault. form_fault desc ≡ Some fault) }
        ensures same { IfOk result (λ d. d ≡ desc) }
        ensures valid { IfOk result IsValid }
        ensures no_memory { IfErr result (λ fault. fault ≢ DescFault.NoMemory) }
    {
        match desc.form_fault() {
            Some(fault) => Err(fault),
            None => Ok(desc),
        }
    }

    // the first fault of a description whose members are in their ranges
    #[tactic(auto, unfolding(crate::specs::DescFault::form_fault))]
    fn form_fault(&self) -> Option<DescFault>
        requires { InRange self.now }
        ensures { result ≡ form_fault self.now }
    {
        if let Some(fault) = self.name_twice() {
            return Some(fault);
        }
        if let Some(fault) = self.devices_fault() {
            return Some(fault);
        }
        if self.devices.len() > 1 {
            self.lacks_p2p()
        } else {
            None
        }
    }

    // the first device that has the name of an earlier one
    fn name_twice(&self) -> Option<DescFault>
        ensures { result ≡ name_twice [] 0 self.now.devices }
    {
        let shapes = self.devices.as_slice();
        for d in 0..self.devices.len() {
            if is_name_taken(&shapes[d as usize], &shapes[..d as usize]) {
                return Some(DescFault::NameTwice { device: d });
            }
        }
        None
    }

    // the first fault of the jobs, by device and job
    fn devices_fault(&self) -> Option<DescFault>
        requires { InRange self.now }
        ensures { result ≡ devices_fault self.now 0 self.now.devices }
    {
        for d in 0..self.devices.len() {
            if let Some(fault) = self.jobs_fault(d) {
                return Some(fault);
            }
        }
        None
    }

    // the first fault of the jobs of one device
    fn jobs_fault(&self, d: u32) -> Option<DescFault>
        requires in_range { InRange self.now }
        requires device { d < device_count self.now }
        ensures { result ≡ jobs_fault self.now d 0 (shape_at self.now d).jobs }
    {
        let jobs = &self.devices.at(d).jobs;
        for j in 0..jobs.len() {
            if let Some(fault) = self.job_fault(d, j, jobs.at(j)) {
                return Some(fault);
            }
        }
        None
    }

    // the first fault of one job
    fn job_fault(&self, d: u32, j: u32, job: &Job) -> Option<DescFault>
        requires in_range { InRange self.now }
        requires device { d < device_count self.now }
        requires job { IsTrue (is_job_in_range job.now) }
        ensures { result ≡ job_fault self.now d j job.now }
    {
        match self.region_of(job.address(), job.length()) {
            None => Some(DescFault::Crosses { device: d, job: j }),
            Some(place) => placed_job_fault(DeviceId(d as u8), j, job, &place),
        }
    }

    // the first device without the peer-to-peer states
    fn lacks_p2p(&self) -> Option<DescFault>
        ensures { result ≡ lacks_p2p 0 self.now.devices }
    {
        for d in 0..self.devices.len() {
            if !self.devices.at(d).flags.has_p2p() {
                return Some(DescFault::NeedsP2p { device: d });
            }
        }
        None
    }

    /// Where a job of the description is aimed.
    pub fn place_of(&self, job: &Job) -> Place
        requires in_range { InRange self.now }
        requires job { IsTrue (is_job_in_range job.now) }
        ensures { result ≡ place_of self.now job.now }
    {
        match self.region_of(job.address(), job.length()) {
            Some(place) => place,
            None => Place {
                region: Region::Page(0),
                offset: 0,
            },
        }
    }

    /// Whether the job rings a doorbell.
    pub fn is_doorbell(&self, job: &Job) -> bool
        requires in_range { InRange self.now }
        requires job { IsTrue (is_job_in_range job.now) }
        ensures { result ≡ is_doorbell self.now job.now }
    {
        job.may_ring() && self.place_of(job).is_bell(job.length())
    }

    /// An equal description.
    pub fn copy(&self) -> Result<Desc, NoMemory>
        ensures { IfOk result (λ copy. copy ≡ self.now) }
    {
        let devices = self.devices.copy()?;
        Ok(Desc {
            session: self.session,
            page: self.page,
            pages: self.pages,
            channels: self.channels,
            version: self.version,
            begin: self.begin,
            rounds: self.rounds,
            threshold: self.threshold,
            devices,
        })
    }
}

// whether one of the devices has the name of this one
fn is_name_taken(shape: &DevShape, others: &[DevShape]) -> bool
    ensures { result ≡ list_any (λ other. pointwise nat_eq shape.now.name other.name) others.now }
{
    let name = shape.name.bytes();
    others.iter().any(|other| name == other.name.bytes())
}

// the first fault of a job that is aimed at this place
fn placed_job_fault(d: DeviceId, j: u32, job: &Job, place: &Place) -> Option<DescFault>
    ensures { (D : Desc) → region_of D (address_of job.now) (length_of job.now) ≡ Some place.now → result ≡ job_fault D d j job.now }
{
    let device = u32::from(d.0);
    if place.region.is_bar_of(d) {
        return Some(DescFault::OwnBar { device, job: j });
    }
    let is_front = place.region.is_bar() && place.offset < 8;
    let rings = job.may_ring() && place.is_bell(job.length());
    if job.is_writer() && is_front && !rings {
        return Some(DescFault::BellKind { device, job: j });
    }
    None
}

#[cfg(test)]
mod tests {
    use super::*;
    use crate::Bytes64;
    use std::test::Fail;

    #[test]
    fn copies_a_description(rt: HostRuntime) -> Result<(), Fail> {
        let alloc = rt.alloc();
        let bytes = Bytes64::of(&[7, 0, 0, 0, 0, 0, 0, 0]).ok_or("bytes")?;
        let jobs = vec![in alloc; Job::Write { at: 16, bytes }, Job::Read { at: 32, len: 5 }]?;
        let queue = vec![in alloc; 1, 0, 1]?;
        let shape = DevShape {
            name: Name::of(b"nic_0").ok_or("name")?,
            flags: Flags::of(3).ok_or("flags")?,
            bars: Bars::of(&[128]).ok_or("bars")?,
            window: 2,
            tells: true,
            budget: 5,
            fails: 1,
            jobs: Jobs::of(jobs),
            queue: Queue::of(queue),
        };
        let shapes = vec![in alloc; shape]?;
        let desc = Desc {
            session: 9,
            page: 64,
            pages: 4,
            channels: 2,
            version: 1,
            begin: 3,
            rounds: 4,
            threshold: 6,
            devices: Shapes::of(shapes),
        };
        let copy = desc.copy()?;
        assert_eq!(rt; copy.threshold, 6);
        assert!(rt; copy.is_in_range());
        assert_eq!(rt; copy.devices.len(), 1);
        let shape = copy.devices.at(0);
        assert_eq!(rt; shape.name.bytes(), b"nic_0".as_slice());
        assert_eq!(rt; shape.queue.as_slice(), [1, 0, 1].as_slice());
        assert_eq!(rt; shape.jobs.len(), 2);
        assert_eq!(rt; shape.jobs.at(0).length(), 8);
        assert_eq!(rt; shape.jobs.at(1).address(), 32);
        Ok(())
    }
}
