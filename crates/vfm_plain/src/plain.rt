//! The plain machine as a whole.

ghost use Rattle.std.specs.Prelude.{◌≡◌, ◌+◌, ◌<◌, ◌≤◌, ◌↔◌, ℕ, Some, [], length, map, replicate, remove, take, is_ok, is_some, slice_index_or, vec_len, All, IfOk, IfSome, OnOk, OnErr, IsTrue};
ghost use Rattle.vfm_types.specs.Desc.{device_count, job_at, shape_at};
ghost use Rattle.vfm_types.specs.Job.{length_of, owner_or_zero, place_of};
ghost use Rattle.vfm_types.specs.Valid.{IsValid, IsSoundJob, is_job_in_range};
ghost use Rattle.vfm_types.specs.Machine.{device_of, with_device, described, described_device, bytes_in, bytes_at, put_at, write_at, with_front, ring, added, effect};
ghost use Rattle.vfm_types.specs.Requests.{is_enabled, job_of, job_or_zero, without, taken, do_request};
ghost use Rattle.vfm_plain.specs.Shape.{HasShape, HasRegion, CanLose, Lies, IsSound};

use crate::device::PlainDevice;
use crate::sheet::{Sheet, added_to, held_bytes, number_of};
use crate::window::free_place;
use std::alloc::Global;
use std::marker::Model;
use vfm_types::{Desc, DeviceId, Job, NoMemory, Place, Region, Shapes};

/// The request isn't enabled.
#[derive(Clone, Copy, Debug, PartialEq, Eq)]
pub struct NotEnabled;

/// The plain machine: pages of memory, and devices that do one request at a time. Seen as a machine.
#[derive(Drop)]
pub struct Plain {
    pub(crate) pages: Vec<Sheet>,
    pub(crate) devices: Vec<PlainDevice>,
}

impl Model for Plain {
    ghost use Rattle.vfm_types.specs.Machine.{Machine};

    ghost Value = { Machine };

    ghost view = { λ p. record { pages = p.pages.items; devices = p.devices.items } };
}

impl Plain {
    /// The machine as described: memory, BARs and buffers are zeros, and the requests of each queue are pending.
    ///
    /// Each device has room for 50,000 requests, the most that any budget allows, so that no later call takes memory.
    pub fn of(alloc: Global, desc: &Desc) -> Result<Plain, NoMemory>
        requires { IsValid desc.now }
        ensures value { IfOk result (λ plain. plain ≡ described desc.now) }
        ensures sound { IfOk result (IsSound desc.now) }
    {
        let pages = zero_pages(alloc, desc.pages, desc.page)?;
        let devices = described_devices(alloc, &desc.devices)?;
        Ok(Plain { pages, devices })
    }

    /// Lends the bytes of a page.
    pub fn page(&self, p: u32) -> &[u8]
        requires { p < length self.now.pages }
        ensures { result.now ≡ slice_index_or self.now.pages p [] }
    {
        let sheet = &self.pages[p as usize];
        sheet.bytes()
    }

    /// Lends the bytes of a device's BARs, one after the other.
    pub fn bar(&self, d: DeviceId) -> &[u8]
        requires { d < length self.now.devices }
        ensures { result.now ≡ (device_of self.now d).bar }
    {
        let device = &self.devices[d.0 as usize];
        device.bar()
    }

    /// Lends a device's buffer.
    pub fn buf(&self, d: DeviceId) -> &[u8; 64]
        requires { d < length self.now.devices }
        ensures { result.now ≡ (device_of self.now d).buf }
    {
        let device = &self.devices[d.0 as usize];
        device.buf()
    }

    /// How many requests a device accepted, did and lost.
    pub fn counts(&self, d: DeviceId) -> (u32, u32, u32)
        requires { d < length self.now.devices }
        ensures accepted { result.0 ≡ (device_of self.now d).accepted }
        ensures done { result.1 ≡ (device_of self.now d).done }
        ensures lost { result.2 ≡ (device_of self.now d).lost }
    {
        let device = &self.devices[d.0 as usize];
        device.counts()
    }

    /// Lends a device's pending requests in order, each with its number and the number of its job.
    pub fn pending(&self, d: DeviceId) -> &[(u32, u32)]
        requires { d < length self.now.devices }
        ensures { result.now ≡ (device_of self.now d).pending }
    {
        let device = &self.devices[d.0 as usize];
        device.pending()
    }

    /// Whether both machines are equal in every part.
    pub fn same(&self, other: &Plain) -> bool
        ensures { IsTrue result ↔ (self.now ≡ other.now) }
    {
        same_pages(self.pages.as_slice(), other.pages.as_slice())
            && same_devices(self.devices.as_slice(), other.devices.as_slice())
    }

    /// Whether request `n` of a device may be done now: it stands among the first `window` pending requests, no fence
    /// stands before it, and it stands first if it is a fence itself. The description is the one that the machine was
    /// made of.
    pub fn can_do(&self, desc: &Desc, d: DeviceId, n: u32) -> bool
        requires device { d < device_count desc.now }
        requires shape { HasShape desc.now self.now }
        ensures { result ≡ is_enabled desc.now self.now d n }
    {
        self.free(desc, d, n).is_some()
    }

    // the place of request n among the pending ones, if it may be done now
    fn free(&self, desc: &Desc, d: DeviceId, n: u32) -> Option<usize>
        requires device { d < device_count desc.now }
        requires shape { HasShape desc.now self.now }
        ensures free { is_some result ≡ is_enabled desc.now self.now d n }
        ensures within { IfSome result (λ k. k < length (device_of self.now d).pending) }
        ensures rest { IfSome result (λ k. remove (device_of self.now d).pending k ≡ without n (device_of self.now d).pending) }
        ensures job { IfSome result
            (λ k. (slice_index_or (device_of self.now d).pending k (0, 0)).1 ≡ job_or_zero n (device_of self.now d).pending) }
    {
        let shape = desc.devices.at(d.0 as u32);
        free_place(&shape.jobs, shape.window, self.pending(d), n)
    }

    /// Does request `n` of a device in one step: takes it from the pending requests, counts it as done, and makes its
    /// whole effect.
    ///
    /// `NotEnabled` exactly where the request isn't enabled; then nothing is changed. The description is the one that the
    /// machine was made of, and no count of lost requests is at its end. Takes no memory, and moves at most `window`
    /// pending requests, whatever their number.
    pub fn apply(&mut self, desc: &Desc, d: DeviceId, n: u32) -> Result<(), NotEnabled>
        requires valid { IsValid desc.now }
        requires device { d < device_count desc.now }
        requires shape { HasShape desc.now self.old }
        requires lost { CanLose desc.now self.old }
        ensures enabled { is_ok result ≡ is_enabled desc.now self.old d n }
        ensures done { OnOk result (self.new ≡ do_request desc.now self.old d n) }
        ensures refused { OnErr result (self.new ≡ self.old) }
        ensures shape { HasShape desc.now self.new }
        ensures sound { IsSound desc.now self.old → IsSound desc.now self.new }
    {
        let Some(k) = self.free(desc, d, n) else {
            return Err(NotEnabled);
        };
        let number = self.take(d, k);
        self.make(desc, d, job_at(desc, d, number));
        Ok(())
    }

    // takes the request at place k among the pending ones away and counts it as done; answers its job's number
    fn take(&mut self, d: DeviceId, k: usize) -> u32
        requires device { d < length self.old.devices }
        requires within { k < length (device_of self.old d).pending }
        ensures job { result ≡ (slice_index_or (device_of self.old d).pending k (0, 0)).1 }
        ensures taken { self.new ≡ with_device self.old d (record (device_of self.old d) {
          pending = remove (device_of self.old d).pending k;
          done = (device_of self.old d).done + 1;
        }) }
    {
        let number = self.pending(d)[k].1;
        let device = &mut self.devices[d.0 as usize];
        device.take(k);
        number
    }

    // makes the whole effect of a job of device d
    fn make(&mut self, desc: &Desc, d: DeviceId, job: &Job)
        requires valid { IsValid desc.now }
        requires device { d < device_count desc.now }
        requires sound { IsSoundJob desc.now d job.now }
        requires in_range { IsTrue (is_job_in_range job.now) }
        requires shape { HasShape desc.now self.old }
        requires lost { CanLose desc.now self.old }
        ensures { self.new ≡ effect desc.now self.old d job.now }
    {
        let place = place_of(desc, d, job);
        match job {
            Job::Write { bytes, .. } => self.write_at(desc, &place, bytes.bytes()),
            Job::Read { len, .. } => self.read_at(d, &place, *len),
            Job::Store { len, .. } => self.store_at(desc, d, &place, *len),
            Job::Add { value, .. } => self.add_at(d, &place, *value),
        }
    }

    // writes bytes at a place: rings the doorbell that stands there, or changes the bytes
    fn write_at(&mut self, desc: &Desc, place: &Place, bytes: &[u8])
        requires valid { IsValid desc.now }
        requires lies { Lies desc.now place.now (length bytes.now) }
        requires few { length bytes.now ≤ 64 }
        requires shape { HasShape desc.now self.old }
        requires lost { CanLose desc.now self.old }
        ensures { self.new ≡ write_at desc.now self.old place.now bytes.now }
    {
        if place.is_bell(bytes.len() as u32) {
            self.ring(desc, owner_or_zero(place.region), number_of(bytes));
        } else {
            self.put_at(place, bytes);
        }
    }

    // rings the doorbell of a device with a number
    fn ring(&mut self, desc: &Desc, d: DeviceId, number: u64)
        requires valid { IsValid desc.now }
        requires device { d < device_count desc.now }
        requires shape { HasShape desc.now self.old }
        requires lost { CanLose desc.now self.old }
        ensures { self.new ≡ ring desc.now self.old d number }
    {
        let device = &mut self.devices[d.0 as usize];
        device.ring(desc.devices.at(d.0 as u32), number);
    }

    // reads bytes at a place into the start of the device's buffer
    fn read_at(&mut self, d: DeviceId, place: &Place, len: u8)
        requires device { d < length self.old.devices }
        requires region { HasRegion self.old place.now.region }
        requires within { place.now.offset + len ≤ length (bytes_in self.old place.now.region) }
        requires few { len ≤ 64 }
        ensures { self.new ≡ with_front self.old d (bytes_at self.old place.now len) }
    {
        let held = held_bytes(self.bytes_at(place, len));
        self.put_front(d, &held[..len as usize]);
    }

    // stores the start of the device's buffer at a place
    fn store_at(&mut self, desc: &Desc, d: DeviceId, place: &Place, len: u8)
        requires valid { IsValid desc.now }
        requires device { d < device_count desc.now }
        requires lies { Lies desc.now place.now len }
        requires few { len ≤ 64 }
        requires shape { HasShape desc.now self.old }
        requires lost { CanLose desc.now self.old }
        ensures { self.new ≡ write_at desc.now self.old place.now (take len (device_of self.old d).buf) }
    {
        let held = *self.buf(d);
        self.write_at(desc, place, &held[..len as usize]);
    }

    // adds a value to the 8 bytes at a place, and puts the old ones at the start of the device's buffer
    fn add_at(&mut self, d: DeviceId, place: &Place, value: u64)
        requires device { d < length self.old.devices }
        requires region { HasRegion self.old place.now.region }
        requires within { place.now.offset + 8 ≤ length (bytes_in self.old place.now.region) }
        ensures { let old = bytes_at self.old place.now 8 in self.new ≡ with_front (put_at self.old place.now (added old value)) d old }
    {
        let held = held_bytes(self.bytes_at(place, 8));
        let old = &held[..8];
        let new = added_to(old, value);
        self.put_at(place, &new[..]);
        self.put_front(d, old);
    }

    // lends the bytes of a region
    fn bytes_in(&self, region: Region) -> &[u8]
        requires { HasRegion self.now region }
        ensures { result.now ≡ bytes_in self.now region }
    {
        match region {
            Region::Page(p) => self.page(p),
            Region::Bar(d) => self.bar(d),
        }
    }

    // lends the bytes at a place
    fn bytes_at(&self, place: &Place, len: u8) -> &[u8]
        requires region { HasRegion self.now place.now.region }
        requires within { place.now.offset + len ≤ length (bytes_in self.now place.now.region) }
        ensures value { result.now ≡ bytes_at self.now place.now len }
        ensures count { length result.now ≡ len }
    {
        let from = place.offset as usize;
        let bytes = self.bytes_in(place.region);
        &bytes[from..from + len as usize]
    }

    // puts bytes at a place
    fn put_at(&mut self, place: &Place, bytes: &[u8])
        requires region { HasRegion self.old place.now.region }
        requires within { place.now.offset + length bytes.now ≤ length (bytes_in self.old place.now.region) }
        ensures { self.new ≡ put_at self.old place.now bytes.now }
    {
        let region = place.region;
        match region {
            Region::Page(p) => {
                let sheet = &mut self.pages[p as usize];
                sheet.put(place.offset, bytes);
            }
            Region::Bar(d) => {
                let device = &mut self.devices[d.0 as usize];
                device.put_bar(place.offset, bytes);
            }
        }
    }

    // puts bytes at the start of the device's buffer
    fn put_front(&mut self, d: DeviceId, bytes: &[u8])
        requires device { d < length self.old.devices }
        requires few { length bytes.now ≤ 64 }
        ensures { self.new ≡ with_front self.old d bytes.now }
    {
        let device = &mut self.devices[d.0 as usize];
        device.put_front(bytes);
    }
}

/// Job `j` of device `d`.
fn job_at(desc: &Desc, d: DeviceId, j: u32) -> &Job
    requires device { d < device_count desc.now }
    requires job { j < length (shape_at desc.now d).jobs }
    ensures { result.now ≡ job_at desc.now d j }
{
    desc.devices.at(d.0 as u32).jobs.at(j)
}

/// Where a job of device `d` is aimed.
fn place_of(desc: &Desc, d: DeviceId, job: &Job) -> Place
    requires valid { IsValid desc.now }
    requires sound { IsSoundJob desc.now d job.now }
    requires in_range { IsTrue (is_job_in_range job.now) }
    ensures value { result ≡ place_of desc.now job.now }
    ensures lies { Lies desc.now result (length_of job.now) }
{
    desc.place_of(job)
}

/// The device whose BARs the region is; device 0 for a page, which no device owns.
fn owner_or_zero(region: Region) -> DeviceId
    ensures { result ≡ owner_or_zero region }
{
    match region {
        Region::Page(_) => DeviceId(0),
        Region::Bar(d) => d,
    }
}

/// So many pages of so many zeros.
fn zero_pages(alloc: Global, pages: u32, page: u32) -> Result<Vec<Sheet>, NoMemory>
    ensures { IfOk result (λ list. list.items ≡ replicate pages (replicate page 0)) }
{
    let mut list = Vec::with_capacity(alloc, pages as usize)?;
    for _p in 0..pages {
        list.push(Sheet::zeros(alloc, page)?)?;
    }
    Ok(list)
}

/// The devices as described.
fn described_devices(alloc: Global, shapes: &Shapes) -> Result<Vec<PlainDevice>, NoMemory>
    requires { All (λ shape. length shape.queue ≤ 50000) shapes.now }
    ensures { IfOk result (λ list. list.items ≡ map described_device shapes.now) }
{
    let mut list = Vec::with_capacity(alloc, shapes.len() as usize)?;
    for shape in shapes.as_slice() {
        list.push(PlainDevice::of(alloc, shape)?)?;
    }
    Ok(list)
}

/// Whether both are the same pages.
fn same_pages(one: &[Sheet], other: &[Sheet]) -> bool
    ensures { IsTrue result ↔ (one.now ≡ other.now) }
{
    if one.len() != other.len() {
        return false;
    }
    for p in 0..one.len() {
        let sheet = &one[p];
        if !sheet.same(&other[p]) {
            return false;
        }
    }
    true
}

/// Whether both are the same devices.
fn same_devices(one: &[PlainDevice], other: &[PlainDevice]) -> bool
    ensures { IsTrue result ↔ (one.now ≡ other.now) }
{
    if one.len() != other.len() {
        return false;
    }
    for d in 0..one.len() {
        let device = &one[d];
        if !device.same(&other[d]) {
            return false;
        }
    }
    true
}
