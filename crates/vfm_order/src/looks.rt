//! What a look has to show. Looks that show the same want the same, so that what shows the facts of a list field by
//! field may stand for its look.

ghost use Rattle.std.specs.Prelude.{◌≡◌, ◌-◌, ◌^◌, ◌<◌, ◌≤◌, ℕ, List};
ghost use Rattle.vfm_types.specs.declared.desc.Desc.{Desc};
ghost use Rattle.vfm_types.specs.declared.entry.Entry.{Entry};
ghost use Rattle.vfm_types.specs.Desc.{device_count};
ghost use Rattle.vfm_types.specs.Valid.{IsValid};
ghost use Rattle.vfm_plain.specs.Legal.{IsLegal};
ghost use Rattle.vfm_quiet.specs.declared.move_look.MoveLook.{MoveLook};
ghost use Rattle.vfm_quiet.specs.Order.{next_want};
ghost use Rattle.vfm_order.specs.LookAfter.{look_after};
ghost use Rattle.vfm_order.specs.Alike.{IsAlike};

/// Looks that show the same of a move, and of the devices that there are, want the same.
pub fn alike_looks_want_the_same()
    ensures { (D : Desc) (look other : MoveLook) (abort_after : ℕ) → IsAlike look other
        → next_want D look abort_after ≡ next_want D other abort_after }
{}

/// The look after a legal list meets what `next` of `vfm_quiet` asks of one: it has the devices of the description,
/// at most eight, and one more pass can be counted.
pub fn looks_can_be_asked()
    ensures count { (D : Desc) (past : List Entry) → (look_after D past).count ≡ device_count D }
    ensures few { (D : Desc) (past : List Entry) → IsValid D → (look_after D past).count ≤ 8 }
    ensures passes { (D : Desc) (past : List Entry) → IsValid D → IsLegal D past → (look_after D past).passes < 2 ^ 32 - 1 }
{}
