//! Runs that have ended: every device is RUNNING and idle.

ghost use Rattle.std.specs.Prelude.{◌≡◌, ℕ, ◌<◌, List, [], IsTrue};
ghost use Rattle.vfm_types.specs.declared.desc.Desc.{Desc};
ghost use Rattle.vfm_types.specs.declared.entry.Entry.{Entry};
ghost use Rattle.vfm_types.specs.Desc.{device_count};
ghost use Rattle.vfm_types.specs.Outstanding.{outstanding_of};
ghost use Rattle.vfm_types.specs.Valid.{IsValid};
ghost use Rattle.vfm_plain.specs.Legal.{IsLegal};
ghost use Rattle.vfm_plain.specs.Ended.{has_ended};
ghost use Rattle.vfm_laws.specs.Queues.{device_after};

/// Where a run has ended, nothing is pending or outstanding, and every device has done what it accepted.
pub fn ended_is_done()
    ensures pending { (D : Desc) (past : List Entry) → IsTrue (has_ended D past) → (d : ℕ) → d < device_count D
        → (device_after D d past).pending ≡ [] }
    ensures outstanding { (D : Desc) (past : List Entry) → IsTrue (has_ended D past) → (d : ℕ) → d < device_count D
        → outstanding_of D d past ≡ [] }
    ensures done { (D : Desc) (past : List Entry) → IsValid D → IsLegal D past → IsTrue (has_ended D past) → (d : ℕ) → d < device_count D
        → (device_after D d past).accepted ≡ (device_after D d past).done }
{}
