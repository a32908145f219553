//! Numbers of generated loads, worked out by hand.

ghost use Rattle.std.specs.Prelude.{◌≡◌, ℕ, [], ◌∷◌, ◌++◌, length, map, replicate, take};
ghost use Rattle.std.specs.List.{flat_map, range_with_len};
ghost use Rattle.vfm_types.specs.declared.job.Job.TheVariants.{Write, Add};
ghost use Rattle.vfm_types.specs.Desc.{device_count, shape_at, job_at, bar_bytes};
ghost use Rattle.vfm_loads.specs.Generated.{load_queue, generated};

/// Counts: the first of all, the last of the last device of the greatest load, whose value is above 2^32, and one
/// whose word is the first of its page again.
#[tactic(auto, unfolding(crate::specs::Generated::generated, crate::specs::Generated::load_shape, crate::specs::Generated::load_job))]
pub fn counts_of_loads()
    ensures first { job_at (generated 0) 0 0 ≡ Add 0 1 }
    ensures last { job_at (generated 4294967295) 7 31 ≡ Add 1044720 4294967334 }
    ensures wrapped { job_at (generated 511) 3 1 ≡ Add 397312 516 }
{}

/// The job that a doorbell asks for adds 1 to the first word of the first page of its device.
#[tactic(auto, unfolding(crate::specs::Generated::generated, crate::specs::Generated::load_shape, crate::specs::Generated::load_job))]
pub fn rung_jobs_of_loads()
    ensures first { job_at (generated 7) 0 33 ≡ Add 0 1 }
    ensures last { job_at (generated 0) 7 33 ≡ Add 917504 1 }
{}

/// A bell writes 33 over the doorbell of the next device, and a block 64 bytes after it, in one of 32 places.
#[tactic(auto, unfolding(crate::specs::Generated::generated, crate::specs::Generated::load_shape, crate::specs::Generated::load_job))]
pub fn peers_of_loads()
    ensures bell { job_at (generated 5) 0 32 ≡ Write 268959744 (33 ∷ replicate 7 0) }
    ensures round { job_at (generated 5) 7 32 ≡ Write 268435456 (33 ∷ replicate 7 0) }
    ensures block { job_at (generated 7) 2 34 ≡ Write 270008832 (replicate 64 3) }
    ensures last_block { job_at (generated 4294967295) 7 34 ≡ Write 268437504 (replicate 64 8) }
{}

/// The queue is one round, 32 times over: the 32 counts, the bell and the block.
#[tactic(auto, unfolding(crate::specs::Generated::load_queue))]
pub fn queue_is_rounds()
    ensures { load_queue ≡ flat_map (λ (round : ℕ). range_with_len 0 33 ++ 34 ∷ []) (range_with_len 0 32) }
{}

/// Sizes and names.
#[tactic(auto, unfolding(crate::specs::Generated::generated, crate::specs::Generated::load_shape, crate::specs::Generated::load_queue))]
pub fn sizes_of_loads()
    ensures devices { device_count (generated 7) ≡ 8 }
    ensures jobs { length (shape_at (generated 7) 3).jobs ≡ 35 }
    ensures queue { length (shape_at (generated 7) 3).queue ≡ 1088 }
    ensures bar { bar_bytes (shape_at (generated 7) 3) ≡ 4096 }
    ensures name { (shape_at (generated 7) 3).name ≡ 100 ∷ 51 ∷ [] }
    ensures session { (generated 7).session ≡ 7 }
{}
