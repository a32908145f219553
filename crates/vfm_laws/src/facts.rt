//! What one more entry makes of the facts of the move and of a device, and which entries keep them.

ghost use Rattle.std.specs.Prelude.{◌≡◌, ◌∷◌, ℕ, List, IsTrue};
ghost use Rattle.vfm_types.specs.declared.entry.Entry.{Entry};
ghost use Rattle.vfm_laws.specs.Facts.{move_facts, move_facts_after, is_beside_move, device_facts, device_facts_after, is_beside_device};

/// One more entry changes the facts of the move as `move_facts_after` says, and one that touches none of them keeps them all.
pub fn move_facts_follow()
    ensures after { (e : Entry) (past : List Entry) → move_facts (e ∷ past) ≡ move_facts_after e (move_facts past) }
    ensures kept { (e : Entry) (past : List Entry) → IsTrue (is_beside_move e) → move_facts (e ∷ past) ≡ move_facts past }
{}

/// One more entry changes the facts of a device as `device_facts_after` says, and one that touches none of them keeps
/// them all.
pub fn device_facts_follow()
    ensures after { (d : ℕ) (e : Entry) (past : List Entry) → device_facts d (e ∷ past) ≡ device_facts_after d e (device_facts d past) }
    ensures kept { (d : ℕ) (e : Entry) (past : List Entry) → IsTrue (is_beside_device d e) → device_facts d (e ∷ past) ≡ device_facts d past }
{}
