//! What the cells of the timed board keep.

ghost use Rattle.std.specs.Prelude.{ℕ};

use vfm_turn::Kept;

/// How often a cell was drawn on.
#[derive(Drop)]
pub struct Count(pub u64);

impl Kept for Count {
    type State = u64;

    ghost state = { λ count. count.0 };

    ghost fits = { λ desc cell count. Unit {0} };
}
