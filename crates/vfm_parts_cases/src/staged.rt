//! A staged core beside the list that stands before its journal.

ghost use Rattle.std.specs.Prelude.{◌≡◌, reverse, Some, None};
ghost use Rattle.vfm_types.specs.declared.entry.Entry.TheVariants.{Pass, Resume};
ghost use Rattle.vfm_types.specs.declared.entry.Rule.TheVariants.{Pages, Decide};
ghost use Rattle.vfm_types.specs.Deliveries.{machine_of};
ghost use Rattle.vfm_plain.specs.Rules.{fault_of};
ghost use Rattle.vfm_parts.specs.Steps.{fault_on};
ghost use Rattle.vfm_parts_laws.specs.StagedParts.{staged_world};
ghost use Rattle.vfm_cases.specs.One.{one, one_source};

/// A Pass breaks another rule on staged parts, which have counted none, than over the joined list; Resume is allowed by
/// both.
pub fn staged_pass_breaks_another_rule()
    ensures staged { fault_on one (staged_world one (machine_of one (reverse one_source))) (Pass 1) ≡ Some Decide }
    ensures joined { fault_of one (reverse one_source) (Pass 1) ≡ Some Pages }
    ensures resume { fault_on one (staged_world one (machine_of one (reverse one_source))) Resume ≡ None }
    ensures joined_resume { fault_of one (reverse one_source) Resume ≡ None }
{}
