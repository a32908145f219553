//! What doing requests keeps, as laws over the definitions of the machine. The calls do nothing.

ghost use Rattle.std.specs.Prelude.{◌≡◌, ◌<◌, ℕ, List, [], Some, IsTrue, length, take, replicate};
ghost use Rattle.vfm_types.specs.declared.desc.Desc.{Desc};
ghost use Rattle.vfm_types.specs.declared.job.Place.{Place};
ghost use Rattle.vfm_types.specs.declared.job.Region.{Region};
ghost use Rattle.vfm_types.specs.Desc.{device_count, shape_at};
ghost use Rattle.vfm_types.specs.Job.{is_bell};
ghost use Rattle.vfm_types.specs.Valid.{IsValid};
ghost use Rattle.vfm_types.specs.Machine.{Machine, device_of, described, bytes_in, write_at};
ghost use Rattle.vfm_types.specs.Requests.{is_enabled, do_request, plain};
ghost use Rattle.vfm_types.specs.Serial.{serial};
ghost use Rattle.vfm_plain.specs.Shape.{HasCounts, IsSound, CanLose};

/// Doing an enabled request keeps what each device has accepted equal to what it did and what is pending, and within
/// its budget.
pub fn doing_keeps_counts()
    ensures { (D : Desc) (m : Machine) (d n : ℕ) → IsTrue (is_enabled D m d n) → HasCounts D m → HasCounts D (do_request D m d n) }
{}

/// The machine as described is sound, doing an enabled request keeps it so, and so each machine that comes of doing
/// requests in order is sound.
pub fn machines_are_sound()
    ensures described { (D : Desc) → IsValid D → IsSound D (described D) }
    ensures done { (D : Desc) (m : Machine) (d n : ℕ) →
        IsValid D → IsTrue (is_enabled D m d n) → IsSound D m → IsSound D (do_request D m d n) }
    ensures all_done { (D : Desc) (requests : List (ℕ × ℕ)) (m : Machine) →
        IsValid D → plain D requests ≡ Some m → IsSound D m }
{}

/// A sound machine can do each enabled request: no count of lost requests is at its end.
pub fn sound_machines_can_lose()
    ensures { (D : Desc) (m : Machine) → IsValid D → IsSound D m → CanLose D m }
{}

/// Bytes 0 to 7 of each device's BAR 0 are zero, whatever requests are done.
pub fn bells_stay_zero()
    ensures { (D : Desc) (requests : List (ℕ × ℕ)) (m : Machine) (d : ℕ) →
        IsValid D → plain D requests ≡ Some m → d < device_count D → take 8 (device_of m d).bar ≡ replicate 8 0 }
{}

/// A doorbell changes no byte of memory, of a BAR or of a buffer.
pub fn doorbells_change_no_byte()
    ensures regions { (D : Desc) (m : Machine) (place : Place) (bytes : List ℕ) (region : Region) →
        IsTrue (is_bell place (length bytes)) → bytes_in (write_at D m place bytes) region ≡ bytes_in m region }
    ensures buffers { (D : Desc) (m : Machine) (place : Place) (bytes : List ℕ) (d : ℕ) →
        IsTrue (is_bell place (length bytes)) → (device_of (write_at D m place bytes) d).buf ≡ (device_of m d).buf }
{}

/// Where no queue has a request, the machine that does all requests in order is the machine as described.
pub fn serial_without_requests()
    ensures { (D : Desc) → ((d : ℕ) → d < device_count D → (shape_at D d).queue ≡ []) → serial D ≡ described D }
{}
