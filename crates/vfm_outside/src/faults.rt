//! The faults of all the links of two ends, as far as a stored count can hold them.

ghost use Rattle.std.specs.Prelude.{◌≡◌, ℕ, ◌+◌, sum_by};
ghost use Rattle.vfm_outside.specs.Counts.{counted};
ghost use Rattle.vfm_outside.specs.Carried.{ends_sum};

use crate::Ends;

/// A link that counts its faults.
pub trait Counting {
    /// How often a call has failed, of both directions.
    ghost faults: { Self → ℕ };

    /// How often a call has failed, as far as a stored count can hold it.
    fn fault_count(&self) -> u64
        ensures { result ≡ counted (faults self.now) };
}

// The faults of a row of links.
fn row_faults<L: Counting>(links: &[L]) -> u64
    ensures { result ≡ counted (sum_by L.faults links.now) }
{
    let mut faults: u64 = 0;
    for link in links {
        faults = faults.saturating_add(link.fault_count());
    }
    faults
}

/// The faults of all the links of the two ends.
pub fn all_faults<L: Counting>(ends: &Ends<L>) -> u64
    ensures { result ≡ counted (ends_sum L.faults ends.now) }
{
    let source = ends
        .source_control
        .fault_count()
        .saturating_add(row_faults(&ends.source));
    let dest = ends
        .dest_control
        .fault_count()
        .saturating_add(row_faults(&ends.dest));
    source.saturating_add(dest)
}
