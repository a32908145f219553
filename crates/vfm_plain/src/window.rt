//! The window of a device: which of its pending requests may be done next.

ghost use Rattle.std.specs.Prelude.{◌≡◌, ◌+◌, ◌<◌, ◌≤◌, ◌==◌, ◌||◌, not, ℕ, true, length, remove, is_some, slice_index_or, IfSome, All};
ghost use Rattle.vfm_types.specs.Desc.{no_job};
ghost use Rattle.vfm_types.specs.Job.{is_fence};
ghost use Rattle.vfm_types.specs.Requests.{is_free, without, job_or_zero};

use vfm_types::Jobs;

/// Whether a request at this place, with no fence before it, may be done.
fn is_open(k: usize, fence: bool) -> bool
    ensures { result ≡ (k == 0 || not fence) }
{
    k == 0 || !fence
}

/// The place of request `n` among the pending ones, if it may be done now: it stands among the first `window`, no
/// fence stands before it, and it stands first if it is a fence itself.
pub fn free_place(jobs: &Jobs, window: u8, pending: &[(u32, u32)], n: u32) -> Option<usize>
    requires { All (λ r. r.1 < length jobs.now) pending.now }
    ensures free { is_some result ≡ is_free (λ j. is_fence (slice_index_or jobs.now j no_job)) true window pending.now n }
    ensures within { IfSome result (λ k. k < length pending.now) }
    ensures rest { IfSome result (λ k. remove pending.now k ≡ without n pending.now) }
    ensures job { IfSome result (λ k. (slice_index_or pending.now k (0, 0)).1 ≡ job_or_zero n pending.now) }
{
    let most = pending.len().min(window as usize);
    for k in 0..most {
        let (number, job) = pending[k];
        let fence = jobs.at(job).is_fence();
        if number == n {
            return if is_open(k, fence) { Some(k) } else { None };
        }
        if fence {
            return None;
        }
    }
    None
}
