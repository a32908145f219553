//! The generated load is a valid description.

ghost use Rattle.std.specs.Prelude.{ℕ, ◌<◌, ◌^◌};
ghost use Rattle.vfm_types.specs.Valid.{IsValid};
ghost use Rattle.vfm_loads.specs.Generated.{generated};

/// The generated load of every number from 0 to 4,294,967,295 is a valid description: its members are in their
/// ranges, each job is aimed at one page or at the BAR of another device, and no job touches a doorbell otherwise
/// than by ringing it.
pub fn generated_is_valid()
    ensures { (N : ℕ) → N < 2 ^ 32 → IsValid (generated N) }
{}
