//! Deliveries: what the issuing device takes in, and what its job makes of its target.

ghost use Rattle.std.specs.Prelude.{◌≡◌, ◌+◌, ◌<◌, ◌≤◌, true, length, take, drop, IfSome, IsTrue};
ghost use Rattle.vfm_types.specs.declared.job.Region.TheVariants.{Bar};
ghost use Rattle.vfm_types.specs.Desc.{bar_bytes, device_count, shape_at};
ghost use Rattle.vfm_types.specs.Job.{length_of, place_of};
ghost use Rattle.vfm_types.specs.Machine.{added, splice};
ghost use Rattle.vfm_types.specs.Outstanding.{deliver_if, is_undelivered};
ghost use Rattle.vfm_types.specs.Requests.{job_or_zero, taken};
ghost use Rattle.vfm_types.specs.Valid.{IsValid, is_job_in_range};
ghost use Rattle.vfm_plain.specs.Shape.{Lies};
ghost use Rattle.vfm_laws.specs.Queues.{is_listed};
ghost use Rattle.vfm_parts.specs.Fits.{DevFits};
ghost use Rattle.vfm_parts.specs.DeliverStep.{buffer_after, delivered_dev, job_in, page_after_job, region_of_job, struck_dev};
ghost use Rattle.vfm_device_part.specs.DeviceSteps.{IsTarget, target_in};
ghost use Rattle.vfm_device_part.specs.PartWrites.{put_dev, rung_dev, written_dev};

use crate::page::PagePart;
use crate::part::DevPart;
use vfm_device::job_at;
use vfm_plain::{added_to, number_of};
use vfm_types::{Desc, DeviceId, Job, Place, Region};

impl DevPart {
    /// Where request `n` of device `d`, whose part this is, is aimed: a page of memory, or the BARs of another device;
    /// `None` exactly where it doesn't wait for its delivery.
    pub fn target(&self, desc: &Desc, d: DeviceId, n: u32) -> Option<Region>
        requires valid { IsValid desc.now }
        requires device { d < device_count desc.now }
        requires fits { DevFits desc.now d self.now }
        ensures value { result ≡ target_in desc.now d n self.now }
        ensures there { IfSome result (IsTarget desc.now d) }
    {
        if !self.is_undelivered(n) {
            return None;
        }
        let job = self.job_of(desc, d, n);
        Some(desc.place_of(job).region)
    }

    /// Whether request `n` is on the bus and waits for its delivery.
    pub(crate) fn is_undelivered(&self, n: u32) -> bool
        ensures { result ≡ is_undelivered n self.now.requests }
    {
        self.engine.is_undelivered(n)
    }

    /// The job of request `n`, which waits for its delivery.
    pub(crate) fn job_of<'a>(&self, desc: &'a Desc, d: DeviceId, n: u32) -> &'a Job
        requires valid { IsValid desc.now }
        requires device { d < device_count desc.now }
        requires fits { DevFits desc.now d self.now }
        requires waits { is_undelivered n self.now.requests ≡ true }
        ensures value { result.now ≡ job_in desc.now d n self.now }
        ensures in_range { IsTrue (is_job_in_range result.now) }
        ensures lies { Lies desc.now (place_of desc.now result.now) (length_of result.now) }
    {
        job_at(desc, d, self.pending_job(n))
    }

    // the number of the job of request n, which is pending
    fn pending_job(&self, n: u32) -> u32
        requires { is_listed n self.now.plain.pending ≡ true }
        ensures { result ≡ job_or_zero n self.now.plain.pending }
    {
        self.engine.pending_job(n)
    }

    /// The issuing device's side of the delivery of its request `n`, which waits for it and is for this job, where the
    /// target has these bytes: it is taken and counted, and what the job reads stands at the front of the buffer.
    pub(crate) fn deliver(&mut self, desc: &Desc, d: DeviceId, n: u32, job: &Job, target: &[u8])
        requires valid { IsValid desc.now }
        requires device { d < device_count desc.now }
        requires fits { DevFits desc.now d self.old }
        requires waits { is_undelivered n self.old.requests ≡ true }
        requires job { job.now ≡ job_in desc.now d n self.old }
        requires in_range { IsTrue (is_job_in_range job.now) }
        requires within { (place_of desc.now job.now).offset + length_of job.now ≤ length target.now }
        ensures { self.new ≡ delivered_dev desc.now d n target.now self.old }
    {
        self.take_in(desc, job, target);
        self.count_delivered(n);
    }

    // puts what a job reads of its target's bytes at the front of the buffer
    fn take_in(&mut self, desc: &Desc, job: &Job, target: &[u8])
        requires valid { IsValid desc.now }
        requires buf { length self.old.plain.buf ≡ 64 }
        requires in_range { IsTrue (is_job_in_range job.now) }
        requires within { (place_of desc.now job.now).offset + length_of job.now ≤ length target.now }
        ensures { self.new ≡ record self.old {
          plain = record self.old.plain { buf = buffer_after desc.now job.now target.now self.old.plain.buf };
        } }
    {
        let offset = desc.place_of(job).offset as usize;
        match job {
            Job::Read { len, .. } => self.set_front(&target[offset..offset + *len as usize]),
            Job::Add { .. } => self.set_front(&target[offset..offset + 8]),
            Job::Write { .. } | Job::Store { .. } => {}
        }
    }

    // puts at most 64 bytes at the front of the buffer
    fn set_front(&mut self, bytes: &[u8])
        requires { length bytes.now ≤ length self.old.plain.buf }
        ensures { self.new ≡ record self.old {
          plain = record self.old.plain { buf = splice self.old.plain.buf 0 bytes.now };
        } }
    {
        self.engine.set_front(bytes);
    }

    // takes request n from the pending ones, counts it as done, and notes that it was delivered
    fn count_delivered(&mut self, n: u32)
        requires { is_listed n self.old.plain.pending ≡ true }
        ensures { self.new ≡ record self.old {
          plain = taken self.old.plain n;
          requests = deliver_if true n self.old.requests;
        } }
    {
        self.engine.deliver(n);
    }

    /// The target's side of a delivery into the BARs of device `t`, whose part this is, where the issuer had this buffer.
    pub(crate) fn strike(&mut self, desc: &Desc, t: DeviceId, job: &Job, buf: &[u8; 64])
        requires valid { IsValid desc.now }
        requires device { t < device_count desc.now }
        requires fits { DevFits desc.now t self.old }
        requires in_range { IsTrue (is_job_in_range job.now) }
        requires aimed { region_of_job desc.now job.now ≡ Bar t }
        requires within { (place_of desc.now job.now).offset + length_of job.now ≤ bar_bytes (shape_at desc.now t) }
        ensures { self.new ≡ struck_dev desc.now t job.now buf.now self.old }
    {
        let place = desc.place_of(job);
        match job {
            Job::Write { bytes, .. } => self.put(desc, t, &place, bytes.bytes()),
            Job::Read { .. } => {}
            Job::Store { len, .. } => self.put(desc, t, &place, &buf[..*len as usize]),
            Job::Add { value, .. } => self.add(place.offset, *value),
        }
    }

    // puts bytes at a place in the BARs of device t: rings the doorbell that stands there, or writes them
    fn put(&mut self, desc: &Desc, t: DeviceId, place: &Place, bytes: &[u8])
        requires valid { IsValid desc.now }
        requires device { t < device_count desc.now }
        requires few { length bytes.now ≤ 64 }
        requires within { place.now.offset + length bytes.now ≤ length self.old.plain.bar }
        ensures { self.new ≡ put_dev (shape_at desc.now t) place.now bytes.now self.old }
    {
        if place.is_bell(bytes.len() as u32) {
            self.ring(desc, t, number_of(bytes));
        } else {
            self.write(place.offset, bytes);
        }
    }

    // rings the doorbell of device t with a number
    fn ring(&mut self, desc: &Desc, t: DeviceId, number: u64)
        requires valid { IsValid desc.now }
        requires device { t < device_count desc.now }
        ensures { self.new ≡ rung_dev (shape_at desc.now t) number self.old }
    {
        let _ = self.engine.ring(desc, t, number);
    }

    // adds a value to the 8 bytes at an offset into the BARs
    fn add(&mut self, offset: u32, value: u64)
        requires { offset + 8 ≤ length self.old.plain.bar }
        ensures { self.new ≡ written_dev offset (added (take 8 (drop offset self.old.plain.bar)) value) self.old }
    {
        let start = offset as usize;
        let new = added_to(&self.bar()[start..start + 8], value);
        self.write(offset, &new[..]);
    }

    // writes bytes at an offset into the BARs; while the log is started, the blocks that they touch are marked
    fn write(&mut self, offset: u32, bytes: &[u8])
        requires within { offset + length bytes.now ≤ length self.old.plain.bar }
        requires few { length bytes.now ≤ 64 }
        ensures { self.new ≡ written_dev offset bytes.now self.old }
    {
        self.bar.set(offset, bytes);
        if self.log.is_started() {
            self.bar.mark(offset, bytes.len() as u32);
        }
    }
}

impl PagePart {
    /// The page's side of a delivery, where the issuer had this buffer.
    pub(crate) fn strike(&mut self, desc: &Desc, job: &Job, buf: &[u8; 64])
        requires valid { IsValid desc.now }
        requires in_range { IsTrue (is_job_in_range job.now) }
        requires within { (place_of desc.now job.now).offset + length_of job.now ≤ length self.old }
        ensures { self.new ≡ page_after_job desc.now job.now buf.now self.old }
    {
        let offset = desc.place_of(job).offset;
        match job {
            Job::Write { bytes, .. } => self.put(offset, bytes.bytes()),
            Job::Read { .. } => {}
            Job::Store { len, .. } => self.put(offset, &buf[..*len as usize]),
            Job::Add { value, .. } => self.add(offset, *value),
        }
    }

    // adds a value to the 8 bytes at an offset
    fn add(&mut self, offset: u32, value: u64)
        requires { offset + 8 ≤ length self.old }
        ensures { self.new ≡ splice self.old offset (added (take 8 (drop offset self.old)) value) }
    {
        let start = offset as usize;
        let new = added_to(&self.bytes()[start..start + 8], value);
        self.put(offset, &new[..]);
    }
}
