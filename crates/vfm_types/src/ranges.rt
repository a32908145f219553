//! Whether the numbers of a description are in their ranges: one table for all of them.

ghost use Rattle.std.specs.Prelude.{◌≡◌, ◌<◌, ◌≤◌, ℕ, List, IsTrue, length, nat_lt};
ghost use Rattle.std.specs.List.{list_all};
ghost use Rattle.vfm_types.specs.declared.fault.FieldName.TheVariants as field;
ghost use Rattle.vfm_types.specs.Ranges as spec;
ghost use Rattle.std.specs.Prelude.{◌&&◌, nat_le, slice_index_or};
ghost use Rattle.vfm_types.specs.Desc.{no_shape};
ghost use Rattle.vfm_types.specs.Valid.{LimitsInRange, InRange, ShapeInRange, is_job_in_range};

use crate::{Bars, Desc, DevShape, FieldName, Job};

impl FieldName {
    /// Whether the member takes this number; for a list, so many elements; for a BAR, so many bytes.
    pub fn takes(self, n: u64) -> bool
        ensures { result ≡ spec.takes self n }
    {
        n >= self.least() && n <= self.most() && self.has_form(n)
    }

    // the least number that the member takes
    fn least(self) -> u64
        ensures { result ≡ spec.least self }
    {
        match self {
            FieldName::Page => 16,
            FieldName::Bar => 64,
            FieldName::Pages
            | FieldName::Channels
            | FieldName::Version
            | FieldName::Devices
            | FieldName::Flags
            | FieldName::Window
            | FieldName::Len => 1,
            _ => 0,
        }
    }

    // the greatest number that the member takes, and 0 for one that takes none
    fn most(self) -> u64
        ensures { result ≡ spec.most self }
    {
        match self {
            FieldName::Session | FieldName::At | FieldName::Value => u64::MAX,
            FieldName::Page | FieldName::Jobs => 4096,
            FieldName::Pages | FieldName::Threshold => 1024,
            FieldName::Begin | FieldName::Budget | FieldName::Queue => 50000,
            FieldName::Channels | FieldName::Rounds | FieldName::Devices | FieldName::Window => 8,
            FieldName::Version => 2,
            FieldName::Flags => 7,
            FieldName::Bar => 65536,
            FieldName::Fails => 3,
            FieldName::Len => 64,
            FieldName::Name | FieldName::Tells | FieldName::Kind | FieldName::Hex => 0,
        }
    }

    // whether the number is of the form that the member asks for besides
    fn has_form(self, n: u64) -> bool
        ensures { result ≡ spec.has_form self n }
    {
        match self {
            FieldName::Page => is_page_size(n),
            FieldName::Flags => n == 1 || n == 3 || n == 5 || n == 7,
            FieldName::Bar => n % 64 == 0,
            _ => true,
        }
    }
}

// whether a page may have so many bytes
fn is_page_size(n: u64) -> bool
    ensures { result ≡ spec.is_page_size n }
{
    n == 16
        || n == 32
        || n == 64
        || n == 128
        || n == 256
        || n == 512
        || n == 1024
        || n == 2048
        || n == 4096
}

// whether each BAR has a size that it may have
fn is_each_bar_taken(sizes: &[u32]) -> bool
    ensures { result ≡ list_all (spec.takes field.Bar) sizes.now }
{
    sizes
        .iter()
        .all(|size| FieldName::Bar.takes(u64::from(*size)))
}

impl Bars {
    /// Whether each size is in its range, 64 to 65,536 in whole blocks of 64, and their sum at most 65,536.
    pub fn is_in_range(&self) -> bool
        ensures { result ≡ spec.are_bar_sizes self.now }
    {
        let sizes = self.as_slice();
        is_each_bar_taken(sizes) && self.bytes() <= 65536
    }
}

impl Job {
    /// Whether the job's numbers are in their ranges.
    pub fn is_in_range(&self) -> bool
        ensures { result ≡ is_job_in_range self.now }
    {
        match self {
            Job::Write { at, bytes } => {
                FieldName::At.takes(*at) && FieldName::Len.takes(u64::from(bytes.len()))
            }
            Job::Read { at, len } => {
                FieldName::At.takes(*at) && FieldName::Len.takes(u64::from(*len))
            }
            Job::Store { at, len } => {
                FieldName::At.takes(*at) && FieldName::Len.takes(u64::from(*len))
            }
            Job::Add { at, value } => FieldName::At.takes(*at) && FieldName::Value.takes(*value),
        }
    }
}

// whether the numbers of all these jobs are in their ranges
fn are_jobs_in_range(jobs: &[Job]) -> bool
    ensures { result ≡ list_all is_job_in_range jobs.now }
{
    jobs.iter().all(|job| job.is_in_range())
}

// whether all these are numbers of jobs
fn are_below(queue: &[u32], count: u32) -> bool
    ensures { result ≡ list_all (λ j. nat_lt j count) queue.now }
{
    queue.iter().all(|j| *j < count)
}

impl DevShape {
    /// Whether the device's members are in their ranges.
    pub fn is_in_range(&self) -> bool
        ensures sound { IsTrue result → ShapeInRange self.now }
        ensures complete { ShapeInRange self.now → IsTrue result }
    {
        let _name = self.name.bytes();
        let _flags = self.flags.bits();
        self.bars.is_in_range()
            && FieldName::Window.takes(u64::from(self.window))
            && FieldName::Budget.takes(u64::from(self.budget))
            && FieldName::Fails.takes(u64::from(self.fails))
            && self.are_requests_in_range()
    }

    // whether its jobs and its queue are in their ranges
    fn are_requests_in_range(&self) -> bool
        ensures { result ≡ spec.takes field.Jobs (length self.now.jobs) && list_all is_job_in_range self.now.jobs
            && nat_le (length self.now.queue) self.now.budget && list_all (λ j. nat_lt j (length self.now.jobs)) self.now.queue }
    {
        FieldName::Jobs.takes(u64::from(self.jobs.len()))
            && are_jobs_in_range(self.jobs.as_slice())
            && self.queue.len() <= self.budget
            && are_below(self.queue.as_slice(), self.jobs.len())
    }
}

// whether the members of all these devices are in their ranges
fn are_shapes_in_range(shapes: &[DevShape]) -> bool
    ensures sound { IsTrue result → (d : ℕ) → d < length shapes.now → ShapeInRange (slice_index_or shapes.now d no_shape) }
    ensures complete { ((d : ℕ) → d < length shapes.now → ShapeInRange (slice_index_or shapes.now d no_shape)) → IsTrue result }
{
    for shape in shapes {
        if !shape.is_in_range() {
            return false;
        }
    }
    true
}

impl Desc {
    /// Whether every number and every list of the description is in its range. What `Desc::new` asks for.
    pub fn is_in_range(&self) -> bool
        ensures sound { IsTrue result → InRange self.now }
        ensures complete { InRange self.now → IsTrue result }
    {
        self.are_limits_in_range()
            && FieldName::Devices.takes(u64::from(self.devices.len()))
            && are_shapes_in_range(self.devices.as_slice())
    }

    // whether the sizes of memory and the limits of the move are in their ranges
    fn are_limits_in_range(&self) -> bool
        ensures sound { IsTrue result → LimitsInRange self.now }
        ensures complete { LimitsInRange self.now → IsTrue result }
    {
        FieldName::Session.takes(self.session)
            && FieldName::Page.takes(u64::from(self.page))
            && FieldName::Pages.takes(u64::from(self.pages))
            && FieldName::Channels.takes(u64::from(self.channels))
            && FieldName::Version.takes(u64::from(self.version))
            && FieldName::Begin.takes(u64::from(self.begin))
            && FieldName::Rounds.takes(u64::from(self.rounds))
            && FieldName::Threshold.takes(u64::from(self.threshold))
    }
}
