//! Legal runs are clean: no request reaches a stopped device, and no stopped device has one delivered.

ghost use Rattle.std.specs.Prelude.{◌≡◌, ℕ, List, ◌∷◌, IsFalse};
ghost use Rattle.vfm_types.specs.declared.job.Region.TheVariants.{Bar};
ghost use Rattle.vfm_types.specs.declared.desc.Desc.{Desc};
ghost use Rattle.vfm_types.specs.declared.entry.Entry.{Entry};
ghost use Rattle.vfm_types.specs.declared.entry.Entry.TheVariants.{Deliver};
ghost use Rattle.vfm_types.specs.Job.{place_of};
ghost use Rattle.vfm_types.specs.Requests.{job_of};
ghost use Rattle.vfm_types.specs.Deliveries.{machine_of};
ghost use Rattle.vfm_types.specs.Arcs.{state_of, is_stopped};
ghost use Rattle.vfm_types.specs.Valid.{IsValid};
ghost use Rattle.vfm_plain.specs.Legal.{IsLegal};
ghost use Rattle.vfm_plain.specs.Clean.{IsClean};

/// A legal list is clean.
pub fn legal_is_clean()
    ensures { (D : Desc) → IsValid D → (past : List Entry) → IsLegal D past → IsClean D past }
{}

/// No request is delivered while its issuer is stopped, and none into the BARs of a stopped device.
pub fn delivery_is_clean()
    ensures issuer { (D : Desc) → IsValid D → (past : List Entry) (d n : ℕ) → IsLegal D (Deliver d n ∷ past)
        → IsFalse (is_stopped (state_of d past)) }
    ensures target { (D : Desc) → IsValid D → (past : List Entry) (d n : ℕ) → IsLegal D (Deliver d n ∷ past)
        → (t : ℕ) → (place_of D (job_of D (machine_of D past) d n)).region ≡ Bar t
        → IsFalse (is_stopped (state_of t past)) }
{}
