//! What each part satisfies by itself, and that every step keeps it.

ghost use Rattle.std.specs.Prelude.{◌≡◌, ◌+◌, ◌<◌, ◌≤◌, ℕ, List, None, IsTrue};
ghost use Rattle.vfm_types.specs.declared.desc.Desc.{Desc};
ghost use Rattle.vfm_types.specs.declared.entry.Entry.{Entry};
ghost use Rattle.vfm_types.specs.declared.job.Job.{Job};
ghost use Rattle.vfm_base.specs.Tests.{first_failed};
ghost use Rattle.vfm_types.specs.Desc.{device_count, shape_at, bar_bytes};
ghost use Rattle.vfm_types.specs.Job.{place_of, length_of};
ghost use Rattle.vfm_types.specs.Machine.{Machine, device_of};
ghost use Rattle.vfm_types.specs.Valid.{IsValid, IsSoundJob};
ghost use Rattle.vfm_plain.specs.Legal.{IsLegal, is_entry_of};
ghost use Rattle.vfm_plain.specs.Shape.{HasShape, HasCounts, Lies};
ghost use Rattle.vfm_laws.specs.Queues.{IsRising};
ghost use Rattle.vfm_parts.specs.Parts.{Dev, World, Parts, parts_in};
ghost use Rattle.vfm_parts.specs.PartsOf.{world_of};
ghost use Rattle.vfm_parts.specs.Start.{first_world};
ghost use Rattle.vfm_parts.specs.Fits.{DevFits, PageFits, PartsFit};
ghost use Rattle.vfm_parts.specs.IssueStep.{issue_conditions_in, issued_dev};
ghost use Rattle.vfm_parts.specs.DeliverStep.{deliver_conditions_in, job_in, delivered_dev, struck_dev, page_after_job};
ghost use Rattle.vfm_parts.specs.CompleteStep.{complete_conditions_in, completed_dev};
ghost use Rattle.vfm_parts.specs.Steps.{fault_in, parts_after, fault_on, after_on};
ghost use Rattle.vfm_parts_laws.specs.StagedParts.{staged_world};

/// The parts fit at first, and after every legal list.
pub fn parts_of_lists_fit()
    ensures first { (D : Desc) → IsValid D → PartsFit D (parts_in (first_world D)) }
    ensures listed { (D : Desc) (past : List Entry) → IsValid D → IsLegal D past → PartsFit D (parts_in (world_of D past)) }
{}

/// Those of a loaded machine fit: with the sizes and the counts of its description, and pending numbers that rise below
/// what was accepted.
pub fn staged_parts_fit()
    ensures { (D : Desc) (m : Machine) → IsValid D → HasShape D m → HasCounts D m
        → ((d : ℕ) → d < device_count D → (device_of m d).lost ≤ 4294967295)
        → ((d : ℕ) → d < device_count D → IsRising 0 (device_of m d).pending (device_of m d).accepted)
        → PartsFit D (parts_in (staged_world D m)) }
{}

/// Each entry that breaks no rule keeps that.
pub fn steps_keep_fit()
    ensures parts { (D : Desc) (parts : Parts) (entry : Entry) → IsValid D → PartsFit D parts → IsTrue (is_entry_of D entry)
        → fault_in D parts entry ≡ None → PartsFit D (parts_after D parts entry) }
    ensures world { (D : Desc) (w : World) (entry : Entry) → IsValid D → PartsFit D (parts_in w) → IsTrue (is_entry_of D entry)
        → fault_on D w entry ≡ None → PartsFit D (parts_in (after_on D w entry)) }
{}

/// A device's own entries keep what its part satisfies, over that part alone.
pub fn own_steps_keep_fit()
    ensures issue { (D : Desc) (d n : ℕ) (dev : Dev) → DevFits D d dev → first_failed (issue_conditions_in D d n dev) ≡ None
        → DevFits D d (issued_dev n dev) }
    ensures complete { (D : Desc) (d n : ℕ) (dev : Dev) → DevFits D d dev → first_failed (complete_conditions_in n dev) ≡ None
        → DevFits D d (completed_dev D d n dev) }
    ensures deliver { (D : Desc) (d n : ℕ) (dev : Dev) (target : List ℕ) → IsValid D → d < device_count D → DevFits D d dev
        → first_failed (deliver_conditions_in n dev) ≡ None → DevFits D d (delivered_dev D d n target dev) }
{}

/// A delivery is of a job that is aimed at one region that is there, and not at its own device; and the target's part
/// keeps what it satisfies, over that part alone.
pub fn delivery_keeps_target_fit()
    ensures sound { (D : Desc) (d n : ℕ) (dev : Dev) → IsValid D → d < device_count D → DevFits D d dev
        → first_failed (deliver_conditions_in n dev) ≡ None → IsSoundJob D d (job_in D d n dev) }
    ensures lies { (D : Desc) (d n : ℕ) (dev : Dev) → IsValid D → d < device_count D → DevFits D d dev
        → first_failed (deliver_conditions_in n dev) ≡ None
        → Lies D (place_of D (job_in D d n dev)) (length_of (job_in D d n dev)) }
    ensures device { (D : Desc) (t : ℕ) (job : Job) (buf : List ℕ) (dev : Dev)
        → (place_of D job).offset + length_of job ≤ bar_bytes (shape_at D t) → DevFits D t dev → DevFits D t (struck_dev D t job buf dev) }
    ensures page { (D : Desc) (job : Job) (buf old : List ℕ) → (place_of D job).offset + length_of job ≤ D.page
        → PageFits D old → PageFits D (page_after_job D job buf old) }
{}
