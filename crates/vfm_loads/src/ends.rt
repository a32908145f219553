//! The end of the generated load: one machine, in whatever order its requests were done.

ghost use Rattle.std.specs.Prelude.{◌≡◌, ℕ, ◌<◌, ◌^◌, List, Some, IsTrue};
ghost use Rattle.vfm_types.specs.declared.entry.Entry.{Entry};
ghost use Rattle.vfm_types.specs.Machine.{Machine};
ghost use Rattle.vfm_types.specs.Requests.{plain};
ghost use Rattle.vfm_types.specs.Deliveries.{machine_of};
ghost use Rattle.vfm_types.specs.Serial.{serial};
ghost use Rattle.vfm_plain.specs.Legal.{IsLegal};
ghost use Rattle.vfm_plain.specs.Shape.{all_done};
ghost use Rattle.vfm_plain.specs.Ended.{has_ended};
ghost use Rattle.vfm_loads.specs.Generated.{generated};
ghost use Rattle.vfm_loads.specs.Still.{IsStill};
ghost use Rattle.vfm_loads.specs.Sums.{all_accepted, all_lost};

/// Whatever enabled requests of a generated load are done one after another: where none is enabled any more, the
/// machine is that of doing them in order.
pub fn every_order_ends_alike()
    ensures { (N : ℕ) → N < 2 ^ 32 → (requests : List (ℕ × ℕ)) (m : Machine)
        → plain (generated N) requests ≡ Some m → IsStill (generated N) m → m ≡ serial (generated N) }
{}

/// Every legal run of a generated load that has ended, moved or not, has the machine of doing its requests in
/// order.
pub fn every_run_ends_alike()
    ensures { (N : ℕ) → N < 2 ^ 32 → (past : List Entry) → IsLegal (generated N) past
        → IsTrue (has_ended (generated N) past) → machine_of (generated N) past ≡ serial (generated N) }
{}

/// At that end the devices together have accepted 8,960 requests, done as many and lost none.
pub fn load_ends_with()
    ensures accepted { (N : ℕ) → N < 2 ^ 32 → all_accepted (serial (generated N)) ≡ 8960 }
    ensures done { (N : ℕ) → N < 2 ^ 32 → all_done (serial (generated N)) ≡ 8960 }
    ensures lost { (N : ℕ) → N < 2 ^ 32 → all_lost (serial (generated N)) ≡ 0 }
{}
