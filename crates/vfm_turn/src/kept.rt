//! What a cell may keep.

ghost use Rattle.std.specs.Prelude.{ℕ};
ghost use Rattle.vfm_types.specs.declared.desc.Desc.{Desc};

/// A type of value that a board's cells keep.
pub trait Kept {
    /// The value's state, plain data.
    type State;

    // the state of a value
    ghost state: { Self → Self.State };

    // what a value meets in a cell of a board over a description; it may speak of the value's state and of its room
    ghost fits: { Desc → ℕ → Self → Type 0 };
}
