//! What is seen of the parts is what the facts of the list say.

ghost use Rattle.std.specs.Prelude.{◌≡◌, ℕ, ◌<◌, List, [], true, length, IsTrue, IsFalse};
ghost use Rattle.vfm_types.specs.declared.desc.Desc.{Desc};
ghost use Rattle.vfm_types.specs.declared.entry.Entry.{Entry};
ghost use Rattle.vfm_base.specs.PageSet.{contains_page};
ghost use Rattle.vfm_types.specs.Desc.{device_count};
ghost use Rattle.vfm_types.specs.Machine.{Machine};
ghost use Rattle.vfm_types.specs.Phases.{is_begun, is_joint, is_aborted, is_resumed, is_failed, pass_count, is_last_begun};
ghost use Rattle.vfm_types.specs.Marks.{is_in_set, set_size, has_reported, next_copy};
ghost use Rattle.vfm_types.specs.Blocks.{next_part, next_block, is_no_pass_open};
ghost use Rattle.vfm_types.specs.Words.{is_decided};
ghost use Rattle.vfm_plain.specs.Looks.{look_of, next_arc, is_ready};
ghost use Rattle.vfm_parts.specs.Parts.{dev_at, parts_in};
ghost use Rattle.vfm_parts.specs.PartsOf.{world_of};
ghost use Rattle.vfm_parts.specs.PartWords.{is_no_pass_open_in, has_reported_in, is_decided_in, next_copy_in, next_part_in};
ghost use Rattle.vfm_parts.specs.BlockStep.{next_block_in};
ghost use Rattle.vfm_parts_laws.specs.StagedParts.{staged_world};
ghost use Rattle.vfm_parts_laws.specs.LooksIn.{look_in, next_arc_in, is_ready_in, due_copy_in, due_part_in, due_block_in, due_copy, due_part, due_block};

/// What is seen of a device by its part is what the list says of it, every field at once; so are the state that its next
/// arc goes to, and whether everything is quiet enough for that.
pub fn device_looks_are_facts()
    ensures look { (D : Desc) (past : List Entry) (d : ℕ) → d < device_count D
        → look_in D d (dev_at (world_of D past) d) ≡ look_of D d past }
    ensures arc { (D : Desc) (past : List Entry) (d : ℕ) → d < device_count D
        → next_arc_in D d (world_of D past).lead (dev_at (world_of D past) d) ≡ next_arc D d past }
    ensures ready { (D : Desc) (past : List Entry) (d : ℕ) → d < device_count D
        → is_ready_in D d (parts_in (world_of D past)) ≡ is_ready D d past }
{}

/// What is seen of the move by the coordinator's part is what the list says: how far it has come, its passes, and whether
/// it is decided.
pub fn move_looks_are_facts()
    ensures begun { (D : Desc) (past : List Entry) → (world_of D past).lead.begun ≡ is_begun past }
    ensures joint { (D : Desc) (past : List Entry) → (world_of D past).lead.joint ≡ is_joint past }
    ensures aborted { (D : Desc) (past : List Entry) → (world_of D past).lead.aborted ≡ is_aborted past }
    ensures resumed { (D : Desc) (past : List Entry) → (world_of D past).lead.resumed ≡ is_resumed past }
    ensures failed { (D : Desc) (past : List Entry) → (world_of D past).lead.failed ≡ is_failed past }
    ensures passes { (D : Desc) (past : List Entry) → (world_of D past).lead.passes ≡ pass_count past }
    ensures last { (D : Desc) (past : List Entry) → (world_of D past).lead.last ≡ is_last_begun past }
    ensures ended { (D : Desc) (past : List Entry) → is_no_pass_open_in D (world_of D past).lead ≡ is_no_pass_open D past }
    ensures decided { (D : Desc) (past : List Entry) → is_decided_in D (world_of D past).lead ≡ is_decided D past }
    ensures reported { (D : Desc) (past : List Entry) (d : ℕ) → d < device_count D
        → has_reported_in (world_of D past).lead d ≡ has_reported d past }
    ensures set { (D : Desc) (past : List Entry) (p : ℕ) → p < D.pages
        → contains_page (world_of D past).lead.set p ≡ is_in_set D p past }
    ensures size { (D : Desc) (past : List Entry) → length (world_of D past).lead.set ≡ set_size D past }
{}

/// So is what is due of a pass: a page, a device's part, and that device's block; nothing once the move was given up or
/// taken over.
pub fn due_looks_are_facts()
    ensures copy { (D : Desc) (past : List Entry) → due_copy_in (world_of D past).lead ≡ due_copy D past }
    ensures part { (D : Desc) (past : List Entry) → due_part_in D (world_of D past).lead ≡ due_part D past }
    ensures block { (D : Desc) (past : List Entry) → due_block_in D (parts_in (world_of D past)) ≡ due_block D past }
{}

/// A staged coordinator shows no pass, an empty set, and the last pass begun and ended: not the facts of the joined list.
pub fn staged_look_is_bare()
    ensures passes { (D : Desc) (m : Machine) → (staged_world D m).lead.passes ≡ 0 }
    ensures last { (D : Desc) (m : Machine) → (staged_world D m).lead.last ≡ true }
    ensures ended { (D : Desc) (m : Machine) → is_no_pass_open_in D (staged_world D m).lead ≡ true }
    ensures set { (D : Desc) (m : Machine) → (staged_world D m).lead.set ≡ [] }
{}
