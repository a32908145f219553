//! The machine that does all requests in order, of any valid description.

ghost use Rattle.std.specs.Prelude.{◌≡◌, ℕ, List, Some};
ghost use Rattle.vfm_types.specs.declared.desc.Desc.{Desc};
ghost use Rattle.vfm_types.specs.Requests.{plain};
ghost use Rattle.vfm_types.specs.Serial.{serial};
ghost use Rattle.vfm_types.specs.Valid.{IsValid};
ghost use Rattle.vfm_loads.specs.Still.{IsStill};

/// The serial machine comes of doing requests one after another, each enabled in its turn.
pub fn serial_does_enabled_requests()
    ensures { (D : Desc) → IsValid D → (requests : List (ℕ × ℕ)) × (plain D requests ≡ Some (serial D)) }
{}

/// The serial machine stops only where no request is enabled: its turns are never too few.
pub fn serial_is_still()
    ensures { (D : Desc) → IsValid D → IsStill D (serial D) }
{}
