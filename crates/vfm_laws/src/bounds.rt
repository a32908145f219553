//! How many requests were issued and completed, how many passes begun and how many arcs made after a legal list.

ghost use Rattle.std.specs.Prelude.{◌≡◌, ℕ, ◌+◌, ◌<◌, ◌≤◌, List, length, IsFalse};
ghost use Rattle.vfm_types.specs.declared.desc.Desc.{Desc};
ghost use Rattle.vfm_types.specs.declared.entry.Entry.{Entry};
ghost use Rattle.vfm_types.specs.Desc.{device_count};
ghost use Rattle.vfm_types.specs.Phases.{is_last_begun, pass_count};
ghost use Rattle.vfm_types.specs.Arcs.{arc_count};
ghost use Rattle.vfm_types.specs.Outstanding.{outstanding_of, issue_count, complete_count};
ghost use Rattle.vfm_types.specs.Valid.{IsValid};
ghost use Rattle.vfm_plain.specs.Legal.{IsLegal};
ghost use Rattle.vfm_laws.specs.Queues.{device_after, waiting};

/// What a device issued it completed or has outstanding; it is done or waits for its delivery; and it was accepted.
pub fn issues_add_up()
    ensures completed { (D : Desc) (past : List Entry) (d : ℕ) → IsLegal D past
        → issue_count d past ≡ complete_count d past + length (outstanding_of D d past) }
    ensures done { (D : Desc) → IsValid D → (past : List Entry) (d : ℕ) → IsLegal D past → d < device_count D
        → issue_count d past ≡ (device_after D d past).done + length (waiting (outstanding_of D d past)) }
    ensures accepted { (D : Desc) (past : List Entry) (d : ℕ) → IsValid D → IsLegal D past → d < device_count D
        → issue_count d past ≤ (device_after D d past).accepted }
{}

/// Before the last pass begins there are at most `rounds` passes, and in all at most one more.
pub fn passes_are_few()
    ensures before_last { (D : Desc) (past : List Entry) → IsLegal D past → IsFalse (is_last_begun past) → pass_count past ≤ D.rounds }
    ensures in_all { (D : Desc) (past : List Entry) → IsLegal D past → pass_count past ≤ D.rounds + 1 }
{}

/// A device makes at most seven arcs, failed ones included.
pub fn arcs_are_few()
    ensures { (D : Desc) (past : List Entry) (d : ℕ) → IsValid D → IsLegal D past → d < device_count D → arc_count d past ≤ 7 }
{}
