//! Worked ends of a move, each checked by computation: what was made, and what was heard of a frame.

ghost use Rattle.std.specs.Prelude.{◌≡◌, ◌∷◌, ℕ, List, [], true, false};
ghost use Rattle.vfm_types.specs.declared.fault.LinkPlace.TheVariants.{Connect};
ghost use Rattle.vfm_status.specs.declared.status.Status.TheVariants.{LinkFault, NoMemory};
ghost use Rattle.vfm_move.specs.Contact.{told_line};
ghost use Rattle.vfm_move.specs.Table.{HasParts};
ghost use Rattle.vfm_move.specs.Worked.{one_moved, one_unconnected};
ghost use Rattle.vfm_move.specs.Answered.{HeardBytes};
ghost use Rattle.vfm_move.specs.WorkedEnds.{hears, one_alone, one_taken_over, three};

/// What was in doubt and is taken over after all is what was moved.
pub fn taken_over()
    ensures { one_taken_over ≡ one_moved }
{}

/// A source that wasn't connected has its own journal alone, and the state at the end.
pub fn gone_alone()
    ensures source { one_alone.source ≡ one_unconnected }
    ensures failed { HasParts (LinkFault Connect) one_alone }
    ensures no_memory { HasParts NoMemory one_alone }
{}

/// Three bytes and the end were heard.
pub fn heard()
    ensures { HeardBytes (told_line (hears true three)) three }
{}

/// Three bytes alone aren't heard yet, and neither are others than those that came.
pub fn unheard()
    ensures cut_short { (bytes : List ℕ) → HeardBytes (told_line (hears false three)) bytes → ⊥ }
    ensures others { HeardBytes (told_line (hears true three)) [] → ⊥ }
{}
