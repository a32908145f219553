//! What a pick gives, where a delivery is aimed, what a device's steps are over all parts, and that a part keeps its fit.

ghost use Rattle.std.specs.Prelude.{◌≡◌, ◌≢◌, ◌<◌, ◌↔◌, ℕ, None, Some, true};
ghost use Rattle.vfm_types.specs.declared.desc.Desc.{Desc};
ghost use Rattle.vfm_types.specs.declared.entry.Entry.{Entry};
ghost use Rattle.vfm_types.specs.declared.entry.Entry.TheVariants.{Deliver};
ghost use Rattle.vfm_types.specs.declared.entry.Rule.TheVariants.{Turn};
ghost use Rattle.vfm_types.specs.declared.job.Region.{Region};
ghost use Rattle.vfm_types.specs.declared.job.Region.TheVariants.{Bar, Page};
ghost use Rattle.vfm_types.specs.declared.state.MigState.{MigState};
ghost use Rattle.vfm_types.specs.Desc.{device_count, shape_at};
ghost use Rattle.vfm_types.specs.Valid.{IsValid};
ghost use Rattle.vfm_parts.specs.Parts.{Dev, Parts};
ghost use Rattle.vfm_parts.specs.Start.{first_dev};
ghost use Rattle.vfm_parts.specs.BeginStep.{begun_dev};
ghost use Rattle.vfm_parts.specs.HoldStep.{held_dev};
ghost use Rattle.vfm_parts.specs.ArcStep.{moved_dev};
ghost use Rattle.vfm_parts.specs.FailStep.{failed_dev};
ghost use Rattle.vfm_parts.specs.ReportStep.{reported_dev};
ghost use Rattle.vfm_parts.specs.BlockStep.{read_dev};
ghost use Rattle.vfm_parts.specs.AbortStep.{aborted_dev};
ghost use Rattle.vfm_parts.specs.ResumeStep.{resumed_dev};
ghost use Rattle.vfm_parts.specs.Fits.{DevFits};
ghost use Rattle.vfm_parts.specs.DeliverStep.{job_in, page_after_job, region_of_job, struck_dev};
ghost use Rattle.vfm_parts.specs.Steps.{dev_after, fault_in, lead_after, page_after, with_dev};
ghost use Rattle.vfm_device_part.specs.DeviceSteps.{IsAimed, delivered_job, is_own_of, is_step_of, issuer_after, own_after, own_fault, target_in, with_page};
ghost use Rattle.vfm_device_part.specs.Pick.{enabled_steps, picked};

/// What is picked is a step of the device that breaks no rule; each such step is picked by some number; and nothing is
/// picked exactly where each step of the device breaks a rule.
pub fn picks_are_allowed_steps()
    ensures own { (D : Desc) (d pick : ℕ) (dev : Dev) (entry : Entry) → DevFits D d dev
        → picked (enabled_steps D d dev) pick ≡ Some entry → is_step_of d entry ≡ true }
    ensures allowed { (D : Desc) (d pick : ℕ) (dev : Dev) (entry : Entry) → DevFits D d dev
        → picked (enabled_steps D d dev) pick ≡ Some entry → own_fault D entry dev ≡ None }
    ensures each { (D : Desc) (d : ℕ) (dev : Dev) (entry : Entry) → DevFits D d dev → is_step_of d entry ≡ true
        → own_fault D entry dev ≡ None → (pick : ℕ) × (picked (enabled_steps D d dev) pick ≡ Some entry) }
    ensures none { (D : Desc) (d pick : ℕ) (dev : Dev) → DevFits D d dev
        → (picked (enabled_steps D d dev) pick ≡ None)
        ↔ ((entry : Entry) → is_step_of d entry ≡ true → own_fault D entry dev ≢ None) }
{}

/// A delivery is aimed where its target is; where there is none, it breaks Turn.
pub fn targets_are_aims()
    ensures aimed { (D : Desc) (d n : ℕ) (dev : Dev) (region : Region)
        → target_in D d n dev ≡ Some region → IsAimed D (Deliver d n) dev region }
    ensures none { (D : Desc) (d n : ℕ) (dev : Dev)
        → target_in D d n dev ≡ None → own_fault D (Deliver d n) dev ≡ Some Turn }
{}

/// A step of a device is the entry over all parts: it breaks the same rule; an Issue and a Complete change the device's own
/// part alone, and a Deliver that part and the page or the device at which its job is aimed.
pub fn device_steps_are_entries()
    ensures fault { (D : Desc) (parts : Parts) (d : ℕ) (entry : Entry) → is_step_of d entry ≡ true
        → fault_in D parts entry ≡ own_fault D entry (parts.dev d) }
    ensures lead { (D : Desc) (parts : Parts) (d : ℕ) (entry : Entry) → is_step_of d entry ≡ true
        → lead_after D parts entry ≡ parts.lead }
    ensures own { (D : Desc) (parts : Parts) (d : ℕ) (entry : Entry) → is_own_of d entry ≡ true → (k : ℕ)
        → dev_after D parts entry k ≡ with_dev d (own_after D entry (parts.dev d)) parts.dev k }
    ensures own_pages { (D : Desc) (parts : Parts) (d : ℕ) (entry : Entry) → is_own_of d entry ≡ true → (q : ℕ)
        → page_after D parts entry q ≡ parts.page q }
    ensures to_device { (D : Desc) (parts : Parts) (d n t : ℕ)
        → region_of_job D (job_in D d n (parts.dev d)) ≡ Bar t → (k : ℕ)
        → dev_after D parts (Deliver d n) k
        ≡ with_dev d (issuer_after D (Deliver d n) (parts.dev t).plain.bar (parts.dev d))
        (with_dev t (struck_dev D t (delivered_job D (Deliver d n) (parts.dev d)) (parts.dev d).plain.buf (parts.dev t))
        parts.dev) k }
    ensures no_page { (D : Desc) (parts : Parts) (d n t : ℕ)
        → region_of_job D (job_in D d n (parts.dev d)) ≡ Bar t → (q : ℕ)
        → page_after D parts (Deliver d n) q ≡ parts.page q }
    ensures to_page { (D : Desc) (parts : Parts) (d n p : ℕ)
        → region_of_job D (job_in D d n (parts.dev d)) ≡ Page p → (q : ℕ)
        → page_after D parts (Deliver d n) q
        ≡ with_page p (page_after_job D (delivered_job D (Deliver d n) (parts.dev d)) (parts.dev d).plain.buf (parts.page p))
        parts.page q }
    ensures no_device { (D : Desc) (parts : Parts) (d n p : ℕ)
        → region_of_job D (job_in D d n (parts.dev d)) ≡ Page p → (k : ℕ)
        → dev_after D parts (Deliver d n) k
        ≡ with_dev d (issuer_after D (Deliver d n) (parts.page p) (parts.dev d)) parts.dev k }
{}

/// A part fits its device as described, and still does after each step of the move on it.
pub fn move_steps_keep_fit()
    ensures first { (D : Desc) (d : ℕ) → IsValid D → d < device_count D → DevFits D d (first_dev (shape_at D d)) }
    ensures begun { (D : Desc) (d : ℕ) (dev : Dev) → DevFits D d dev → DevFits D d (begun_dev dev) }
    ensures held { (D : Desc) (d : ℕ) (to : MigState) (dev : Dev) → DevFits D d dev → DevFits D d (held_dev to dev) }
    ensures moved { (D : Desc) (d : ℕ) (to : MigState) (dev : Dev) → DevFits D d dev → DevFits D d (moved_dev to dev) }
    ensures failed { (D : Desc) (d : ℕ) (dev : Dev) → DevFits D d dev → DevFits D d (failed_dev dev) }
    ensures reported { (D : Desc) (d : ℕ) (dev : Dev) → DevFits D d dev → DevFits D d (reported_dev dev) }
    ensures read { (D : Desc) (d b : ℕ) (dev : Dev) → DevFits D d dev → DevFits D d (read_dev D d b dev) }
    ensures aborted { (D : Desc) (d : ℕ) (dev : Dev) → DevFits D d dev → DevFits D d (aborted_dev dev) }
    ensures resumed { (D : Desc) (d : ℕ) (dev : Dev) → DevFits D d dev → DevFits D d (resumed_dev dev) }
{}
