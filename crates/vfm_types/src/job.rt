//! What a device can be asked to do by DMA, and where an address lies.

ghost use Rattle.std.specs.Prelude.{◌≡◌, ◌≤◌, IsTrue};
ghost use Rattle.vfm_types.specs.Job.{is_fence, address_of, length_of, is_writer, may_ring, is_bar, is_bar_of, is_bell};
ghost use Rattle.vfm_types.specs.Valid.{is_job_in_range};

use crate::{Bytes64, DeviceId, NoMemory};
use vfm_base::Duplicate;

/// One DMA job of a device. A request is one accepted job.
#[derive(Debug, Drop)]
pub enum Job {
    /// Puts the bytes at the address.
    Write { at: u64, bytes: Bytes64 },
    /// Takes `len` (1 to 64) bytes from the address into the start of the issuer's 64-byte buffer. A fence.
    Read { at: u64, len: u8 },
    /// Puts the first `len` (1 to 64) bytes of the issuer's buffer at the address. A fence.
    Store { at: u64, len: u8 },
    /// Adds the value to the 8 bytes at the address, little-endian and wrapping, and puts the old 8 bytes at the start
    /// of the issuer's buffer. A fence.
    Add { at: u64, value: u64 },
}

impl Job {
    /// An equal job.
    pub fn copy(&self) -> Job
        ensures { result ≡ self.now }
    {
        match self {
            Job::Write { at, bytes } => Job::Write {
                at: *at,
                bytes: bytes.copy(),
            },
            Job::Read { at, len } => Job::Read { at: *at, len: *len },
            Job::Store { at, len } => Job::Store { at: *at, len: *len },
            Job::Add { at, value } => Job::Add {
                at: *at,
                value: *value,
            },
        }
    }
}

impl Duplicate for Job {
    fn duplicate(&self) -> Result<Job, NoMemory> {
        Ok(self.copy())
    }
}

impl Job {
    /// The address that the job touches.
    pub fn address(&self) -> u64
        ensures { result ≡ address_of self.now }
    {
        match self {
            Job::Write { at, .. } => *at,
            Job::Read { at, .. } => *at,
            Job::Store { at, .. } => *at,
            Job::Add { at, .. } => *at,
        }
    }

    /// How many bytes it touches there.
    pub fn length(&self) -> u32
        ensures { result ≡ length_of self.now }
    {
        match self {
            Job::Write { bytes, .. } => bytes.len(),
            Job::Read { len, .. } => u32::from(*len),
            Job::Store { len, .. } => u32::from(*len),
            Job::Add { .. } => 8,
        }
    }

    /// Whether it waits for each request before it, and each request after it waits for it.
    pub fn is_fence(&self) -> bool
        ensures { result ≡ is_fence self.now }
    {
        !matches!(self, Job::Write { .. })
    }

    /// Whether it changes what it touches.
    pub fn is_writer(&self) -> bool
        ensures { result ≡ is_writer self.now }
    {
        !matches!(self, Job::Read { .. })
    }

    /// Whether it may be a doorbell: a write or a store.
    pub fn may_ring(&self) -> bool
        ensures { result ≡ may_ring self.now }
    {
        matches!(self, Job::Write { .. } | Job::Store { .. })
    }
}

/// Where a range of addresses lies.
#[derive(Clone, Copy, Debug, PartialEq, Eq)]
pub enum Region {
    /// In this page of memory.
    Page(u32),
    /// In the BARs of this device.
    Bar(DeviceId),
}

/// A region, and how far into it a range begins, in bytes. The BARs of a device are one region: offsets count over all of
/// them, one after the other.
#[derive(Clone, Copy, Debug, PartialEq, Eq)]
pub struct Place {
    pub region: Region,
    pub offset: u32,
}

impl Region {
    /// Whether it is the BARs of a device.
    pub fn is_bar(&self) -> bool
        ensures { result ≡ is_bar self.now }
    {
        matches!(self, Region::Bar(_))
    }

    /// Whether it is the BARs of this device.
    pub fn is_bar_of(&self, d: DeviceId) -> bool
        ensures { result ≡ is_bar_of d self.now }
    {
        match self {
            Region::Page(_) => false,
            Region::Bar(owner) => owner.0 == d.0,
        }
    }
}

impl Place {
    /// Whether `len` bytes from here are a doorbell: the first 8 bytes of a device's BAR 0.
    pub fn is_bell(&self, len: u32) -> bool
        ensures { result ≡ is_bell self.now len }
    {
        self.region.is_bar() && self.offset == 0 && len == 8
    }
}
