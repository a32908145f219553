//! The requests of a device after a legal list: pending and outstanding ones, and their numbers.

ghost use Rattle.std.specs.Prelude.{◌≡◌, ℕ, ◌+◌, ◌<◌, ◌≤◌, List, length, IsTrue};
ghost use Rattle.vfm_types.specs.declared.desc.Desc.{Desc};
ghost use Rattle.vfm_types.specs.declared.entry.Entry.{Entry};
ghost use Rattle.vfm_types.specs.Desc.{device_count, shape_at};
ghost use Rattle.vfm_types.specs.Requests.{job_or_zero, is_enabled};
ghost use Rattle.vfm_types.specs.Deliveries.{machine_of};
ghost use Rattle.vfm_types.specs.Outstanding.{outstanding_of, is_outstanding, is_undelivered, outstanding_job_or_zero};
ghost use Rattle.vfm_types.specs.Words.{has_fence};
ghost use Rattle.vfm_types.specs.Valid.{IsValid};
ghost use Rattle.vfm_plain.specs.Legal.{IsLegal};
ghost use Rattle.vfm_laws.specs.Queues.{device_after, waiting, IsPrefixOf, AllOnce, KeepsQueues};

/// What a device has accepted it has done or still has pending, and its budget bounds it.
pub fn accepted_is_done_or_pending()
    ensures sum { (D : Desc) (past : List Entry) (d : ℕ) → IsValid D → IsLegal D past → d < device_count D
        → (device_after D d past).accepted ≡ (device_after D d past).done + length (device_after D d past).pending }
    ensures budget { (D : Desc) (past : List Entry) (d : ℕ) → IsValid D → IsLegal D past → d < device_count D
        → (device_after D d past).accepted ≤ (shape_at D d).budget }
{}

/// The undelivered requests of a device are the first of its pending ones, each with the job that it has there.
pub fn undelivered_are_first()
    ensures first { (D : Desc) (past : List Entry) (d : ℕ) → IsValid D → IsLegal D past → d < device_count D
        → IsPrefixOf (waiting (outstanding_of D d past)) (device_after D d past).pending }
    ensures job { (D : Desc) (past : List Entry) (d : ℕ) → IsValid D → IsLegal D past → d < device_count D
        → (n : ℕ) → IsTrue (is_undelivered n (outstanding_of D d past))
        → job_or_zero n (device_after D d past).pending ≡ outstanding_job_or_zero n (outstanding_of D d past) }
{}

/// Each undelivered request is enabled in the plain machine: among the first `window` pending ones, after no fence.
pub fn undelivered_are_enabled()
    ensures { (D : Desc) (past : List Entry) (d : ℕ) → IsValid D → IsLegal D past → d < device_count D
        → (n : ℕ) → IsTrue (is_undelivered n (outstanding_of D d past)) → IsTrue (is_enabled D (machine_of D past) d n) }
{}

/// The outstanding requests of a device have different numbers, all given to requests that it accepted.
pub fn outstanding_numbers_differ()
    ensures once { (D : Desc) (past : List Entry) (d : ℕ) → IsValid D → IsLegal D past → d < device_count D
        → AllOnce (outstanding_of D d past) }
    ensures accepted { (D : Desc) (past : List Entry) (d : ℕ) → IsValid D → IsLegal D past → d < device_count D
        → (n : ℕ) → IsTrue (is_outstanding n (outstanding_of D d past)) → n < (device_after D d past).accepted }
{}

/// At most `window` requests of a device are outstanding, and a fence only alone: none is outstanding after one.
pub fn window_and_fences_hold()
    ensures window { (D : Desc) (past : List Entry) (d : ℕ) → IsValid D → IsLegal D past → d < device_count D
        → length (outstanding_of D d past) ≤ (shape_at D d).window }
    ensures fence { (D : Desc) (past : List Entry) (d : ℕ) → IsValid D → IsLegal D past → d < device_count D
        → IsTrue (has_fence D d (outstanding_of D d past)) → length (outstanding_of D d past) ≤ 1 }
{}

/// All that a legal list keeps of the devices' queues: numbers that rise, and delivered requests that are pending no more.
pub fn queues_are_kept()
    ensures { (D : Desc) → IsValid D → (past : List Entry) → IsLegal D past → KeepsQueues D past }
{}
