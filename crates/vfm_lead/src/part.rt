//! The coordinator's part, and what each entry makes of it.

ghost use Rattle.std.specs.Prelude.{◌≡◌, ◌+◌, ◌-◌, ◌<◌, ◌≤◌, ◌^◌, ◌==◌, true, false, [], length, slice_set, IsTrue};
ghost use Rattle.vfm_base.specs.PageSet.{contains_page};
ghost use Rattle.vfm_types.specs.Desc.{device_count};
ghost use Rattle.vfm_types.specs.Valid.{IsValid};
ghost use Rattle.vfm_parts.specs.Parts.{Dev, listed, numbers_below};
ghost use Rattle.vfm_parts.specs.Start.{first_lead};
ghost use Rattle.vfm_parts.specs.Fits.{IsSetBelow, LeadFits};
ghost use Rattle.vfm_parts.specs.AbortStep.{aborted_lead};
ghost use Rattle.vfm_parts.specs.BeginStep.{begun_lead};
ghost use Rattle.vfm_parts.specs.BlockStep.{read_lead};
ghost use Rattle.vfm_parts.specs.CopyStep.{copied_lead};
ghost use Rattle.vfm_parts.specs.DryStep.{dry_lead};
ghost use Rattle.vfm_parts.specs.FailStep.{failed_lead};
ghost use Rattle.vfm_parts.specs.JointStep.{joint_lead};
ghost use Rattle.vfm_parts.specs.PassStep.{pass_pages};
ghost use Rattle.vfm_parts.specs.ReportStep.{reported_lead};
ghost use Rattle.vfm_parts.specs.ResumeStep.{resumed_lead};
ghost use Rattle.vfm_parts_laws.specs.StagedParts.{staged_lead};

use crate::by_device::{Counts, Marks};
use std::marker::Model;
use vfm_types::{Desc, DeviceId, PageSet};

/// The coordinator's part of a machine on its move: how far the move has come, its passes, the pages of the newest one,
/// and for each device whether it reported and how many blocks it may still read. Seen as the value `Lead`.
///
/// No call takes memory.
#[derive(Drop)]
pub struct LeadPart {
    begun: bool,
    joint: bool,
    aborted: bool,
    resumed: bool,
    failed: bool,
    passes: u32,
    last: bool,
    set: PageSet,
    left: PageSet,
    gathered: PageSet,
    reported: Marks,
    parts: Counts,
}

impl Model for LeadPart {
    ghost use Rattle.vfm_parts.specs.Parts.{Lead};

    ghost Value = { Lead };

    ghost view = { λ p. record {
      begun = p.begun;
      joint = p.joint;
      aborted = p.aborted;
      resumed = p.resumed;
      failed = p.failed;
      passes = p.passes;
      last = p.last;
      set = p.set;
      left = p.left;
      gathered = p.gathered;
      reported = p.reported;
      parts = p.parts;
    } };
}

// how many devices the description has
fn count_of(desc: &Desc) -> u8
    requires { IsValid desc.now }
    ensures value { result ≡ device_count desc.now }
    ensures few { result ≤ 8 }
{
    desc.devices.len() as u8
}

impl LeadPart {
    /// The part before the move.
    pub fn new(desc: &Desc) -> LeadPart
        requires { IsValid desc.now }
        ensures { result ≡ first_lead desc.now }
    {
        let count = count_of(desc);
        LeadPart {
            begun: false,
            joint: false,
            aborted: false,
            resumed: false,
            failed: false,
            passes: 0,
            last: false,
            set: PageSet::new(),
            left: PageSet::new(),
            gathered: PageSet::new(),
            reported: Marks::none(count),
            parts: Counts::zeros(count),
        }
    }

    /// The part at the destination, where the machine was loaded: begun and joint, and the last pass has ended.
    pub fn staged(desc: &Desc) -> LeadPart
        requires { IsValid desc.now }
        ensures { result ≡ staged_lead desc.now }
    {
        let mut part = LeadPart::new(desc);
        part.begun = true;
        part.joint = true;
        part.last = true;
        part
    }

    /// Whether the move has begun.
    pub fn begun(&self) -> bool
        ensures { result ≡ self.now.begun }
    {
        self.begun
    }

    /// Whether every device was found in `STOP_COPY`.
    pub fn joint(&self) -> bool
        ensures { result ≡ self.now.joint }
    {
        self.joint
    }

    /// Whether the move was given up.
    pub fn aborted(&self) -> bool
        ensures { result ≡ self.now.aborted }
    {
        self.aborted
    }

    /// Whether the destination took over.
    pub fn resumed(&self) -> bool
        ensures { result ≡ self.now.resumed }
    {
        self.resumed
    }

    /// Whether an arc failed and the move wasn't given up since.
    pub fn failed(&self) -> bool
        ensures { result ≡ self.now.failed }
    {
        self.failed
    }

    /// How many passes have begun.
    pub fn passes(&self) -> u32
        ensures { result ≡ self.now.passes }
    {
        self.passes
    }

    /// Whether the last pass has begun.
    pub fn last(&self) -> bool
        ensures { result ≡ self.now.last }
    {
        self.last
    }

    /// The pages of the newest pass.
    pub fn set(&self) -> &PageSet
        ensures { result.now ≡ self.now.set }
    {
        &self.set
    }

    /// Those of them that are yet to be copied.
    pub fn left(&self) -> &PageSet
        ensures { result.now ≡ self.now.left }
    {
        &self.left
    }

    // which devices have reported since it began
    pub(crate) fn reported(&self) -> &Marks
        ensures { result.now ≡ self.now.reported }
    {
        &self.reported
    }

    // how many blocks each device may still read in it
    pub(crate) fn parts(&self) -> &Counts
        ensures { result.now ≡ self.now.parts }
    {
        &self.parts
    }

    /// The move begins.
    pub fn begin(&mut self)
        ensures { self.new ≡ begun_lead self.old }
    {
        self.begun = true;
    }

    /// Every device was found in `STOP_COPY`.
    pub fn join(&mut self)
        ensures { self.new ≡ joint_lead self.old }
    {
        self.joint = true;
    }

    /// The move is given up.
    pub fn abort(&mut self)
        ensures { self.new ≡ aborted_lead self.old }
    {
        self.aborted = true;
        self.failed = false;
    }

    /// The destination takes over.
    pub fn resume(&mut self)
        ensures { self.new ≡ resumed_lead self.old }
    {
        self.resumed = true;
    }

    /// An arc failed.
    pub fn fail(&mut self)
        ensures { self.new ≡ failed_lead self.old }
    {
        self.failed = true;
    }

    #[tactic(auto, using(crate::proofs::LeadSets::copied))]
    /// Page `p` of the pass is copied.
    pub fn copy(&mut self, desc: &Desc, p: u32)
        requires valid { IsValid desc.now }
        requires fits { LeadFits desc.now self.old }
        requires page { p < desc.now.pages }
        ensures { self.new ≡ copied_lead desc.now p self.old }
    {
        self.left.remove(p);
    }

    /// A block of device `d` is read.
    pub fn read_block(&mut self, d: DeviceId)
        requires { d < length self.old.parts }
        ensures { self.new ≡ read_lead d self.old }
    {
        let left = self.parts.at(d);
        self.parts.set(d, left.saturating_sub(1));
    }

    /// The part of device `d` in the pass has ended.
    pub fn end_part(&mut self, d: DeviceId)
        requires { d < length self.old.parts }
        ensures { self.new ≡ dry_lead d self.old }
    {
        self.parts.set(d, 0);
    }

    #[tactic(auto, using(crate::proofs::LeadSets::reported))]
    /// Device `d` reported these pages.
    pub fn report(&mut self, desc: &Desc, d: DeviceId, pages: &PageSet)
        requires valid { IsValid desc.now }
        requires fits { LeadFits desc.now self.old }
        requires pages { IsSetBelow desc.now.pages pages.now }
        requires device { d < device_count desc.now }
        ensures { self.new ≡ reported_lead desc.now d pages.now self.old }
    {
        self.gathered.join(pages);
        self.reported.mark(d);
    }

    /// Pass `k` begins, in which each device may read so many blocks.
    pub fn pass(&mut self, desc: &Desc, k: u32, sizes: Counts)
        requires valid { IsValid desc.now }
        requires few { self.old.passes < 2 ^ 32 - 1 }
        ensures { self.new ≡ record self.old {
          passes = self.old.passes + 1;
          last = self.old.joint;
          set = pass_pages desc.now k self.old;
          left = pass_pages desc.now k self.old;
          gathered = [];
          reported = listed (device_count desc.now) (λ _. false);
          parts = sizes;
        } }
    {
        let set = self.pages_of_pass(desc, k);
        self.passes += 1;
        self.last = self.joint;
        self.left = set.copy();
        self.set = set;
        self.gathered.clear();
        self.reported = Marks::none(count_of(desc));
        self.parts = sizes;
    }

    #[tactic(auto, using(crate::proofs::Sets::all_pages))]
    // the pages of pass k: all of them in the first, what was gathered in a later one
    fn pages_of_pass(&self, desc: &Desc, k: u32) -> PageSet
        requires { IsValid desc.now }
        ensures { result ≡ pass_pages desc.now k self.now }
    {
        if k == 1 {
            PageSet::full(desc.pages)
        } else {
            self.gathered.copy()
        }
    }
}
