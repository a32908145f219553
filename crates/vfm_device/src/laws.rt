//! What an engine keeps through every step, and that its steps are those of a device's part.

ghost use Rattle.std.specs.Prelude.{◌≡◌, ◌+◌, ◌<◌, ◌≤◌, ◌||◌, All, Bool, List, [], false, length, true, ℕ};
ghost use Rattle.vfm_base.specs.Tests.{first_failed};
ghost use Rattle.vfm_types.specs.declared.desc.Desc.{Desc};
ghost use Rattle.vfm_types.specs.declared.desc.DevShape.{DevShape};
ghost use Rattle.vfm_types.specs.declared.state.MigState.{MigState};
ghost use Rattle.vfm_types.specs.Desc.{device_count, shape_at};
ghost use Rattle.vfm_types.specs.Outstanding.{is_arrived, is_undelivered};
ghost use Rattle.vfm_types.specs.Valid.{IsValid};
ghost use Rattle.vfm_laws.specs.Queues.{IsRising, is_listed};
ghost use Rattle.vfm_parts.specs.Parts.{Dev};
ghost use Rattle.vfm_parts.specs.AbortStep.{aborted_dev};
ghost use Rattle.vfm_parts.specs.ArcStep.{moved_dev};
ghost use Rattle.vfm_parts.specs.CompleteStep.{completed_dev, marks_after_complete};
ghost use Rattle.vfm_parts.specs.DeliverStep.{buffer_after, delivered_dev, job_in, rung};
ghost use Rattle.vfm_parts.specs.FailStep.{failed_dev};
ghost use Rattle.vfm_parts.specs.HoldStep.{held_dev};
ghost use Rattle.vfm_parts.specs.IssueStep.{is_next_to_issue_in, issue_conditions_in, issued_dev};
ghost use Rattle.vfm_parts.specs.ResumeStep.{resumed_dev};
ghost use Rattle.vfm_device.specs.EngineState.{EngineKept, EngineState, described_engine, part_of, plain_with, staged_engine, with_arc, with_completed, with_delivered, with_engine, with_failed_arc, with_front_put, with_hold, with_issued, with_no_hold, with_resumed, with_rung};

/// What an engine keeps beside its value it has at the start, as described and as staged.
pub fn engines_start_in_order()
    ensures described { (D : Desc) (d : ℕ) → IsValid D → d < device_count D → EngineKept D d (described_engine (shape_at D d)) }
    ensures staged { (D : Desc) (d done lost : ℕ) (pending : List (ℕ × ℕ)) (buf : List ℕ) → d < device_count D
        → IsRising 0 pending (done + length pending) → done + length pending ≤ (shape_at D d).budget
        → All (λ r. r.1 < length (shape_at D d).jobs) pending → EngineKept D d (staged_engine done lost pending buf) }
{}

/// It keeps it through every step that is allowed.
pub fn engines_stay_in_order()
    ensures issued { (D : Desc) (d n : ℕ) (begun : Bool) (e : EngineState) → EngineKept D d e
        → is_next_to_issue_in D d n (part_of begun e) ≡ true → EngineKept D d (with_issued n e) }
    ensures delivered { (D : Desc) (d n : ℕ) (e : EngineState) → EngineKept D d e
        → is_undelivered n e.requests ≡ true → EngineKept D d (with_delivered n e) }
    ensures completed { (D : Desc) (d n : ℕ) (e : EngineState) → EngineKept D d e
        → is_arrived n e.requests ≡ true → EngineKept D d (with_completed n e) }
    ensures rung { (D : Desc) (d number : ℕ) (e : EngineState) → EngineKept D d e → EngineKept D d (with_rung (shape_at D d) number e) }
    ensures front { (D : Desc) (d : ℕ) (bytes : List ℕ) (e : EngineState) → EngineKept D d e → EngineKept D d (with_front_put bytes e) }
    ensures held { (D : Desc) (d : ℕ) (to : MigState) (e : EngineState) → EngineKept D d e → EngineKept D d (with_hold to e) }
    ensures moved { (D : Desc) (d : ℕ) (to : MigState) (e : EngineState) → EngineKept D d e → EngineKept D d (with_arc to e) }
    ensures failed { (D : Desc) (d : ℕ) (e : EngineState) → EngineKept D d e → EngineKept D d (with_failed_arc e) }
    ensures released { (D : Desc) (d : ℕ) (e : EngineState) → EngineKept D d e → EngineKept D d (with_no_hold e) }
    ensures resumed { (D : Desc) (d : ℕ) (e : EngineState) → EngineKept D d e → EngineKept D d (with_resumed e) }
{}

/// Each step of an engine is what the entry makes of the device's part, as far as the engine goes.
pub fn engine_steps_are_part_steps()
    ensures barred { (D : Desc) (d n : ℕ) (e : EngineState) (dev : Dev)
        → first_failed (issue_conditions_in D d n (with_engine e dev))
        ≡ first_failed (issue_conditions_in D d n (part_of (dev.logging || dev.released) e)) }
    ensures issued { (n : ℕ) (e : EngineState) (dev : Dev) → issued_dev n (with_engine e dev) ≡ with_engine (with_issued n e) dev }
    ensures delivered { (D : Desc) (d n : ℕ) (target : List ℕ) (e : EngineState) (dev : Dev)
        → delivered_dev D d n target (with_engine e dev)
        ≡ with_engine (record (with_delivered n e) { buf = buffer_after D (job_in D d n (with_engine e dev)) target e.buf }) dev }
    ensures completed { (D : Desc) (d n : ℕ) (e : EngineState) (dev : Dev)
        → completed_dev D d n (with_engine e dev)
        ≡ with_engine (with_completed n e) (record dev { marks = marks_after_complete D d n (with_engine e dev) }) }
    ensures rung { (shape : DevShape) (number : ℕ) (bar : List ℕ) (e : EngineState)
        → rung shape (plain_with bar e) number ≡ plain_with bar (with_rung shape number e) }
    ensures held { (to : MigState) (e : EngineState) (dev : Dev) → held_dev to (with_engine e dev) ≡ with_engine (with_hold to e) dev }
    ensures moved { (to : MigState) (e : EngineState) (dev : Dev) → moved_dev to (with_engine e dev) ≡ with_engine (with_arc to e) dev }
    ensures failed { (e : EngineState) (dev : Dev) → failed_dev (with_engine e dev) ≡ with_engine (with_failed_arc e) dev }
    ensures aborted { (e : EngineState) (dev : Dev)
        → aborted_dev (with_engine e dev) ≡ with_engine (with_no_hold e) (record dev { released = true }) }
    ensures resumed { (e : EngineState) (dev : Dev)
        → resumed_dev (with_engine e dev)
        ≡ with_engine (with_resumed e) (record dev { logging = false; released = true; marks = []; unread = []; dirty = [] }) }
{}

/// A request that waits for its delivery is among the pending ones.
pub fn undelivered_requests_are_pending()
    ensures { (D : Desc) (d n : ℕ) (e : EngineState) → EngineKept D d e → is_undelivered n e.requests ≡ true → is_listed n e.pending ≡ true }
{}
