//! The parts of a list begin as those of the described machine, and each entry is judged and made on the parts that it
//! touches as it is over the whole list.

ghost use Rattle.std.specs.Prelude.{◌≡◌, List, [], ◌∷◌, IsTrue};
ghost use Rattle.vfm_types.specs.declared.desc.Desc.{Desc};
ghost use Rattle.vfm_types.specs.declared.entry.Entry.{Entry};
ghost use Rattle.vfm_types.specs.Valid.{IsValid};
ghost use Rattle.vfm_plain.specs.Rules.{fault_of};
ghost use Rattle.vfm_plain.specs.Legal.{IsLegal, is_entry_of};
ghost use Rattle.vfm_parts.specs.PartsOf.{world_of};
ghost use Rattle.vfm_parts.specs.Steps.{fault_on, after_on};
ghost use Rattle.vfm_parts.specs.Start.{first_world};

/// Before the first entry the parts are those of the described machine.
pub fn parts_begin()
    ensures { (D : Desc) → world_of D [] ≡ first_world D }
{}

/// After every list, the first rule that an entry breaks is the same over the parts as over the list.
pub fn faults_are_local()
    ensures { (D : Desc) (past : List Entry) (entry : Entry) → IsTrue (is_entry_of D entry)
        → fault_on D (world_of D past) entry ≡ fault_of D past entry }
{}

/// After every legal list, one more legal entry makes of the parts those of the longer list.
pub fn effects_are_local()
    ensures { (D : Desc) (past : List Entry) (entry : Entry) → IsValid D → IsLegal D (entry ∷ past)
        → after_on D (world_of D past) entry ≡ world_of D (entry ∷ past) }
{}
