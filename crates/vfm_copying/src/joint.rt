//! The end of the last pass: what was copied and read last is the machine at the joint stop, whatever came
//! after it.

ghost use Rattle.std.specs.Prelude.{◌≡◌, ℕ, ◌<◌, List, ◌∷◌, Some, IsTrue, IsFalse};
ghost use Rattle.vfm_types.specs.declared.desc.Desc.{Desc};
ghost use Rattle.vfm_types.specs.declared.entry.Entry.{Entry};
ghost use Rattle.vfm_types.specs.declared.entry.Entry.TheVariants.{Joint};
ghost use Rattle.vfm_types.specs.Desc.{device_count, shape_at, block_count};
ghost use Rattle.vfm_types.specs.Deliveries.{machine_of, joint_machine, page_bytes, block_bytes};
ghost use Rattle.vfm_types.specs.Phases.{is_joint, is_aborted, is_resumed, is_last_begun};
ghost use Rattle.vfm_types.specs.Marks.{has_reported};
ghost use Rattle.vfm_types.specs.Blocks.{is_no_pass_open};
ghost use Rattle.vfm_types.specs.Valid.{IsValid};
ghost use Rattle.vfm_plain.specs.Legal.{IsLegal};
ghost use Rattle.vfm_copying.specs.Copies.{last_copy, last_reading};
ghost use Rattle.vfm_copying.specs.Lost.{is_all_sent};

/// At the end of the last pass each page was copied last as it stands at the joint stop.
pub fn last_pass_copies_joint_pages()
    ensures { (D : Desc) (past : List Entry) (p : ℕ) → IsValid D → IsLegal D past
        → IsTrue (is_last_begun past) → IsTrue (is_no_pass_open D past) → p < D.pages
        → last_copy D p past ≡ Some (page_bytes (joint_machine D past) p) }
{}

/// At the end of the last pass each block was read last as it stands at the joint stop.
pub fn last_pass_reads_joint_blocks()
    ensures { (D : Desc) (past : List Entry) (d b : ℕ) → IsValid D → IsLegal D past
        → IsTrue (is_last_begun past) → IsTrue (is_no_pass_open D past) → d < device_count D
        → b < block_count (shape_at D d)
        → last_reading D d b past ≡ Some (block_bytes (joint_machine D past) d b) }
{}

/// Both at once, as the test that a run is put to that loses a write.
pub fn last_pass_sends_joint_machine()
    ensures { (D : Desc) (past : List Entry) → IsValid D → IsLegal D past
        → IsTrue (is_last_begun past) → IsTrue (is_no_pass_open D past) → IsTrue (is_all_sent D past) }
{}

/// A report that was made before the joint stop doesn't count for the last pass: as the machine is found
/// standing, no device has reported since the newest pass began.
pub fn reports_before_joint_are_void()
    ensures { (D : Desc) (past : List Entry) (d : ℕ) → IsValid D → IsLegal D (Joint ∷ past)
        → IsFalse (has_reported d past) }
{}

/// From the joint stop on, until the source gives up or the destination takes over, the machine is the one
/// at the stop.
pub fn machine_stands_from_joint()
    ensures { (D : Desc) (past : List Entry) → IsValid D → IsLegal D past
        → IsTrue (is_joint past) → IsFalse (is_aborted past) → IsFalse (is_resumed past)
        → machine_of D past ≡ joint_machine D past }
{}
