//! What is sent for a legal list: which records, what they load, and how it goes on.

ghost use Rattle.std.specs.Prelude.{◌≡◌, ℕ, ◌≤◌, List, ◌∷◌, ◌++◌, IsTrue};
ghost use Rattle.vfm_types.specs.declared.desc.Desc.{Desc};
ghost use Rattle.vfm_types.specs.declared.entry.Entry.{Entry};
ghost use Rattle.vfm_types.specs.Desc.{device_count};
ghost use Rattle.vfm_types.specs.Deliveries.{joint_machine};
ghost use Rattle.vfm_types.specs.Phases.{is_last_begun};
ghost use Rattle.vfm_types.specs.Blocks.{is_no_pass_open};
ghost use Rattle.vfm_types.specs.Valid.{IsValid};
ghost use Rattle.vfm_plain.specs.Legal.{IsLegal};
ghost use Rattle.vfm_streams.specs.Sent.{sent, records_of};
ghost use Rattle.vfm_streams.specs.Packets.{share};
ghost use Rattle.vfm_streams.specs.Loaded.{loaded};
ghost use Rattle.vfm_streams.specs.Judged.{AllFit};

/// Where the last pass has ended, the records that are sent load the machine at the joint stop.
pub fn sent_records_load_joint_machine()
    ensures { (D : Desc) (past : List Entry) → IsValid D → IsLegal D past
        → IsTrue (is_last_begun past) → IsTrue (is_no_pass_open D past)
        → loaded D (λ s. records_of s (sent D past)) ≡ joint_machine D past }
{}

/// Each record that is sent is one of its stream and can stand behind those that are sent before it.
pub fn sent_records_fit()
    ensures { (D : Desc) (past : List Entry) (s : ℕ) → IsValid D → IsLegal D past → s ≤ device_count D
        → AllFit D s (records_of s (sent D past)) }
{}

/// What a channel carries for a longer legal list goes on from what it carries for a shorter one.
pub fn share_goes_on()
    ensures one_more { (D : Desc) (past : List Entry) (entry : Entry) (k : ℕ) → IsLegal D (entry ∷ past)
        → (more : List ℕ) × (share D (entry ∷ past) k ≡ share D past k ++ more) }
    ensures later { (D : Desc) (entries past : List Entry) (k : ℕ) → IsLegal D (entries ++ past)
        → (more : List ℕ) × (share D (entries ++ past) k ≡ share D past k ++ more) }
{}

/// Once the last pass has ended nothing more is sent, whatever legal entry follows.
pub fn sent_stays_after_last_pass()
    ensures { (D : Desc) (past : List Entry) (entry : Entry) → IsLegal D (entry ∷ past)
        → IsTrue (is_last_begun past) → IsTrue (is_no_pass_open D past)
        → sent D (entry ∷ past) ≡ sent D past }
{}
