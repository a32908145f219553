//! Laws of a closed board: what each record says of its own cells, the whole log says of all cells at once.

ghost use Rattle.std.specs.Prelude.{List};
ghost use Rattle.vfm_types.specs.declared.entry.Entry.{Entry};
ghost use Rattle.vfm_turn.specs.declared.seen.Touch.{Touch};
ghost use Rattle.vfm_turn.specs.Run.{HistoriesRun, NotesRun};

/// Which entry may make which step on the cells that it touches.
pub trait Local<Z> {
    // the entry, and each cell that it touches with its state before and after
    ghost allows: { Entry → List (Touch Z) → Type 0 };
}

/// Where each record of each ticket is allowed on the cells that it touches, all records in the order of their stamps
/// are one run of the whole board, from the states that it was started with to those that came back.
pub fn one_run<Z, L: Local<Z>>()
    ensures { HistoriesRun L.allows }
{}

/// And so are the records below each noted answer: they lead to the states that the note has.
pub fn one_run_to_each_note<Z, L: Local<Z>>()
    ensures { NotesRun L.allows }
{}
