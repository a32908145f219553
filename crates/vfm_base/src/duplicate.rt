//! Copies that are equal to what they were made of, and that may run out of memory.

ghost use Rattle.std.specs.Prelude.{◌≡◌, IfOk};

use crate::NoMemory;

/// What can be copied, on the allocator that it keeps if it keeps one. A derived `Clone` promises equality only where
/// each part's does; here the trait itself promises it, so that a list of such values has an equal copy too.
pub trait Duplicate {
    /// An equal value.
    fn duplicate(&self) -> Result<Self, NoMemory>
        ensures { IfOk result (λ copy. copy ≡ self.now) };
}

impl Duplicate for u32 {
    fn duplicate(&self) -> Result<u32, NoMemory> {
        Ok(*self)
    }
}
