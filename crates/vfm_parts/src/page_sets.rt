//! The sets of the parts as the sets that code keeps.

ghost use Rattle.std.specs.Prelude.{◌≡◌, ◌≤◌, ℕ, Bool, false};
ghost use Rattle.vfm_base.specs.PageSet.{pages_where};
ghost use Rattle.vfm_parts.specs.Parts.{numbers_below};

/// The numbers below n that pass are, as a set of pages, those that pass where nothing from n on does; n is at most 1,024.
pub fn sets_are_page_sets()
    ensures { (n : ℕ) (test : ℕ → Bool) → n ≤ 1024 → ((q : ℕ) → n ≤ q → test q ≡ false) → pages_where test ≡ numbers_below n test }
{}
