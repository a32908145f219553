//! The part of one device: its engine, its BARs, its dirty log, and whether it was released.

ghost use Rattle.std.specs.Prelude.{◌≡◌, ◌+◌, ◌*◌, ◌<◌, ◌≤◌, ◌==◌, ◌||◌, ◌&&◌, not, ℕ, true, [], length, take, drop, IfOk};
ghost use Rattle.vfm_base.specs.PageSet.{IsPageList, contains_page, least_page_from, pages_where};
ghost use Rattle.vfm_types.specs.declared.desc.Desc.{Desc};
ghost use Rattle.vfm_types.specs.Desc.{bar_bytes, device_count, shape_at};
ghost use Rattle.vfm_types.specs.Outstanding.{is_arrived, is_undelivered};
ghost use Rattle.vfm_types.specs.Words.{has_barred, is_nothing};
ghost use Rattle.vfm_parts.specs.Fits.{DevFits};
ghost use Rattle.vfm_parts_laws.specs.LooksIn.{look_in};
ghost use Rattle.vfm_types.specs.Valid.{IsValid};
ghost use Rattle.vfm_parts.specs.Parts.{Dev};
ghost use Rattle.vfm_parts.specs.PartWords.{is_idle_in};
ghost use Rattle.vfm_parts.specs.Start.{first_dev};
ghost use Rattle.vfm_parts.specs.BeginStep.{begun_dev};
ghost use Rattle.vfm_parts.specs.HoldStep.{held_dev};
ghost use Rattle.vfm_parts.specs.ArcStep.{moved_dev};
ghost use Rattle.vfm_parts.specs.FailStep.{failed_dev};
ghost use Rattle.vfm_parts.specs.BlockStep.{next_block_in, read_dev};
ghost use Rattle.vfm_parts.specs.ReportStep.{reported_dev};
ghost use Rattle.vfm_parts.specs.AbortStep.{aborted_dev};
ghost use Rattle.vfm_parts.specs.ResumeStep.{resumed_dev};
ghost use Rattle.vfm_parts_laws.specs.StagedParts.{staged_dev};

use std::alloc::Global;
use std::marker::Model;
use vfm_device::Engine;
use vfm_dirty::DirtyLog;
use vfm_space::Bar;
use vfm_types::{Desc, DevLook, DeviceId, MigState, NoMemory, PageSet};

/// The part of one device: its engine, its BARs with the marks of their blocks, its dirty log, and whether it was released
/// by Abort or Resume. Seen as the part of a device.
///
/// Only `of` and `staged` take memory.
#[derive(Drop)]
pub struct DevPart {
    pub(crate) engine: Engine,
    pub(crate) bar: Bar,
    pub(crate) log: DirtyLog,
    released: bool,
}

impl Model for DevPart {
    ghost use Rattle.vfm_parts.specs.Parts.{Dev};
    ghost use Rattle.vfm_device_part.specs.Part.{part_of_leaves};

    ghost Value = { Dev };

    ghost view = { λ p. part_of_leaves p.engine p.bar p.log p.released };
}

impl DevPart {
    #[tactic(auto, using(crate::proofs::Shapes::bars_are_blocks, crate::proofs::Shapes::bars_are_few))]
    /// The part of device `d` as described: `RUNNING`, its log not started, no block of its BARs read.
    pub fn of(alloc: Global, desc: &Desc, d: DeviceId) -> Result<DevPart, NoMemory>
        requires valid { IsValid desc.now }
        requires device { d < device_count desc.now }
        ensures { IfOk result (λ part. part ≡ first_dev (shape_at desc.now d)) }
    {
        let size = desc.devices.at(u32::from(d.0)).bar_bytes();
        Ok(DevPart {
            engine: Engine::of(alloc, desc, d)?,
            bar: Bar::of(alloc, size)?,
            log: DirtyLog::new(),
            released: false,
        })
    }

    #[tactic(auto, using(crate::proofs::Shapes::bars_are_blocks, crate::proofs::Shapes::bars_are_few))]
    /// The part of device `d` as loaded: in `STOP_COPY`, its log started, no block read, nothing counted, with these bytes
    /// in its BARs, so many requests accepted, done and lost (`counts`), these pending, and this buffer.
    pub fn staged(
        alloc: Global,
        desc: &Desc,
        d: DeviceId,
        bar: &[u8],
        counts: (u32, u32, u32),
        pending: &[(u32, u32)],
        buf: &[u8; 64],
    ) -> Result<DevPart, NoMemory>
        requires valid { IsValid desc.now }
        requires device { d < device_count desc.now }
        requires bar { length bar.now ≡ bar_bytes (shape_at desc.now d) }
        requires accepted { counts.0 ≡ counts.1 + length pending.now }
        requires few { counts.0 ≤ 50000 }
        ensures { IfOk result (λ part. part ≡ staged_dev (shape_at desc.now d) (record {
          bar = bar.now;
          pending = pending.now;
          buf = buf.now;
          accepted = counts.0;
          done = counts.1;
          lost = counts.2;
        })) }
    {
        Ok(DevPart {
            engine: Engine::staged(alloc, counts, pending, buf)?,
            bar: Bar::holding(alloc, bar)?,
            log: started_log(),
            released: false,
        })
    }

    /// Starts the log, with nothing marked, as the move begins.
    pub fn begin(&mut self)
        ensures { self.new ≡ begun_dev self.old }
    {
        self.log.restart();
    }

    /// Holds the device for a state.
    pub fn hold(&mut self, to: MigState)
        ensures { self.new ≡ held_dev to self.old }
    {
        self.engine.hold(to);
    }

    /// Takes the device to a state; its hold goes. The count of arcs stands still at 2^32 - 1.
    pub fn arc(&mut self, to: MigState)
        ensures { self.new ≡ moved_dev to self.old }
    {
        self.engine.arc(to);
    }

    /// Counts an arc that failed; state and hold stay.
    pub fn fail(&mut self)
        ensures { self.new ≡ failed_dev self.old }
    {
        self.engine.fail();
    }

    /// Adds the pages that are marked in the log to `into`, and clears the log.
    pub fn report(&mut self, into: &mut PageSet)
        ensures reported { self.new ≡ reported_dev self.old }
        ensures given { into.new ≡ pages_where (λ q. contains_page into.old q || contains_page self.old.marks q) }
        ensures set { IsPageList into.new }
    {
        self.log.take_marks(into);
    }

    /// Lends the 64 bytes of block `b` of the BARs.
    pub fn block(&self, b: u32) -> &[u8]
        requires { 64 * (b + 1) ≤ length self.now.plain.bar }
        ensures value { result.now ≡ take 64 (drop (64 * b) self.now.plain.bar) }
        ensures count { length result.now ≡ 64 }
    {
        self.bar.block(b)
    }

    /// Takes the marks of block `b` of the BARs away, as it is read: what a Block makes of the part.
    pub fn read_block(&mut self, b: u32)
        requires { 64 * (b + 1) ≤ length self.old.plain.bar }
        ensures taken { self.new ≡ record self.old {
          unread = pages_where (λ c. contains_page self.old.unread c && not (c == b));
          dirty = pages_where (λ c. contains_page self.old.dirty c && not (c == b));
        } }
        ensures read { (D : Desc) (d : ℕ) → IsValid D → d < device_count D → DevFits D d self.old
            → self.new ≡ read_dev D d b self.old }
    {
        self.bar.unmark(b);
    }

    /// Takes the hold away, as the move is given up; from then on the device may issue at any time.
    pub fn release(&mut self)
        ensures { self.new ≡ aborted_dev self.old }
    {
        self.engine.release();
        self.released = true;
    }

    /// Makes the state `RESUMING`, stops the log and takes every mark away, as the destination takes the machine over; from
    /// then on the device may issue at any time.
    pub fn resume(&mut self)
        ensures { self.new ≡ resumed_dev self.old }
    {
        self.engine.resume();
        self.log.reset();
        self.bar.clear_marks();
        self.released = true;
    }

    /// The state of the device.
    pub fn state(&self) -> MigState
        ensures { result ≡ self.now.state }
    {
        self.engine.state()
    }

    /// What the device is held for.
    pub fn held(&self) -> Option<MigState>
        ensures { result ≡ self.now.hold }
    {
        self.engine.held()
    }

    /// Whether the device was released, by Abort or Resume.
    pub fn is_released(&self) -> bool
        ensures { result ≡ self.now.released }
    {
        self.released
    }

    /// Whether the dirty log is started.
    pub fn is_logging(&self) -> bool
        ensures { result ≡ self.now.logging }
    {
        self.log.is_started()
    }

    /// How often the device issued, completed, and took an arc.
    pub fn steps(&self) -> (u32, u32, u32)
        ensures issues { result.0 ≡ self.now.issues }
        ensures completes { result.1 ≡ self.now.completes }
        ensures arcs { result.2 ≡ self.now.arcs }
    {
        self.engine.steps()
    }

    /// How many requests the device accepted, did and lost.
    pub fn counts(&self) -> (u32, u32, u32)
        ensures accepted { result.0 ≡ self.now.plain.accepted }
        ensures done { result.1 ≡ self.now.plain.done }
        ensures lost { result.2 ≡ self.now.plain.lost }
    {
        self.engine.counts()
    }

    /// Lends the pending requests, each with its number and the number of its job, in order.
    pub fn pending(&self) -> &[(u32, u32)]
        ensures { result.now ≡ self.now.plain.pending }
    {
        self.engine.pending()
    }

    /// Lends the buffer.
    pub fn buf(&self) -> &[u8; 64]
        ensures { result.now ≡ self.now.plain.buf }
    {
        self.engine.buf()
    }

    /// Lends the bytes of the BARs, one BAR after the other.
    pub fn bar(&self) -> &[u8]
        ensures { result.now ≡ self.now.plain.bar }
    {
        self.bar.bytes()
    }

    /// How many blocks of the BARs were never read.
    pub fn unread_count(&self) -> u32
        ensures value { result ≡ length self.now.unread }
        ensures most { result ≤ 1024 }
    {
        self.bar.unread_count()
    }

    /// How many blocks of the BARs were written since they were read.
    pub fn dirty_count(&self) -> u32
        ensures value { result ≡ length self.now.dirty }
        ensures most { result ≤ 1024 }
    {
        self.bar.dirty_count()
    }

    /// The least block of the BARs that was never read.
    pub fn least_unread(&self) -> Option<u32>
        ensures { result ≡ least_page_from self.now.unread 0 }
    {
        self.bar.unread()
    }

    /// The least block of the BARs that was written since it was read.
    pub fn least_dirty(&self) -> Option<u32>
        ensures { result ≡ least_page_from self.now.dirty 0 }
    {
        self.bar.dirty()
    }

    /// The block that is to be read next: the least that was never read, else the least that was written since it was read.
    pub fn next_block(&self) -> Option<u32>
        ensures { result ≡ next_block_in self.now }
    {
        self.bar.unread().or(self.bar.dirty())
    }

    /// Whether nothing is pending and nothing is on the bus.
    pub fn is_idle(&self) -> bool
        ensures { result ≡ is_idle_in self.now }
    {
        self.engine.is_idle()
    }

    /// Whether nothing is on the bus.
    pub fn is_bus_empty(&self) -> bool
        ensures { result ≡ is_nothing self.now.requests }
    {
        self.engine.is_bus_empty()
    }

    /// Whether a request of device `d`, whose part this is, is on the bus and barred in the peer-to-peer states.
    pub fn has_barred(&self, desc: &Desc, d: DeviceId) -> bool
        requires valid { IsValid desc.now }
        requires device { d < device_count desc.now }
        requires fits { DevFits desc.now d self.now }
        ensures { result ≡ has_barred desc.now d self.now.requests }
    {
        self.engine.has_barred(desc, d)
    }

    #[tactic(auto, using(crate::proofs::Engines::look_same))]
    /// What can be seen of device `d`, whose part this is.
    pub fn look(&self, desc: &Desc, d: DeviceId) -> DevLook
        requires valid { IsValid desc.now }
        requires device { d < device_count desc.now }
        requires fits { DevFits desc.now d self.now }
        ensures { result ≡ look_in desc.now d self.now }
    {
        self.engine.look(desc, d, self.may_issue_freely())
    }

    /// Whether the device may issue at any time: its log is started, or it was released.
    pub(crate) fn may_issue_freely(&self) -> bool
        ensures { result ≡ (self.now.logging || self.now.released) }
    {
        self.log.is_started() || self.released
    }

    /// The pages that are marked in the log.
    pub fn marks(&self) -> &PageSet
        ensures { result.now ≡ self.now.marks }
    {
        self.log.marks()
    }

    /// How many pages are marked in the log.
    pub fn marked_count(&self) -> u32
        ensures { result ≡ length self.now.marks }
    {
        self.log.count()
    }
}

// A log that is started, with nothing marked.
fn started_log() -> DirtyLog
    ensures { result ≡ record { started = true; marked = [] } }
{
    let mut log = DirtyLog::new();
    log.restart();
    log
}
