//! That what is written into BARs and read of them is what the entries make of a device's part.

ghost use Rattle.std.specs.Prelude.{◌≡◌, ◌+◌, ◌<◌, ◌≤◌, ℕ, true, false, IsTrue};
ghost use Rattle.vfm_types.specs.declared.desc.Desc.{Desc};
ghost use Rattle.vfm_types.specs.declared.job.Job.{Job};
ghost use Rattle.vfm_types.specs.Desc.{bar_bytes, device_count, shape_at};
ghost use Rattle.vfm_types.specs.Job.{length_of, place_of};
ghost use Rattle.vfm_types.specs.Valid.{IsValid, is_job_in_range};
ghost use Rattle.vfm_parts.specs.Parts.{Dev};
ghost use Rattle.vfm_parts.specs.Fits.{DevFits};
ghost use Rattle.vfm_parts.specs.BlockStep.{read_dev};
ghost use Rattle.vfm_parts.specs.DeliverStep.{dirty_after_job};
ghost use Rattle.vfm_space.specs.Blocks.{with_marks, with_read};
ghost use Rattle.vfm_space.specs.BlocksOfParts.{blocks_of, with_blocks, writes_bar};

/// While the log of a device is started, a job that writes into its BARs makes dirty what a write there marks; a job that
/// doesn't, a doorbell among them, leaves the dirty blocks as they were. The reading of a block is that of the entry.
pub fn bar_steps_are_part_steps()
    ensures written { (D : Desc) (t : ℕ) (job : Job) (dev : Dev) → IsValid D → t < device_count D → DevFits D t dev
        → IsTrue (is_job_in_range job) → (place_of D job).offset + length_of job ≤ bar_bytes (shape_at D t)
        → writes_bar D t job ≡ true → dev.logging ≡ true
        → dirty_after_job D t job dev ≡ (with_marks (place_of D job).offset (length_of job) (blocks_of dev)).dirty }
    ensures untouched { (D : Desc) (t : ℕ) (job : Job) (dev : Dev) → DevFits D t dev
        → writes_bar D t job ≡ false → dirty_after_job D t job dev ≡ dev.dirty }
    ensures read { (D : Desc) (d b : ℕ) (dev : Dev) → IsValid D → d < device_count D → DevFits D d dev
        → read_dev D d b dev ≡ with_blocks (with_read b (blocks_of dev)) dev }
{}
