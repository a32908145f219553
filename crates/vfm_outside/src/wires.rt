//! What makes the links between the two ends, and takes them in again.

ghost use Rattle.std.specs.Prelude.{◌≡◌, ℕ, ◌≤◌, List, [], ◌∷◌, Option, Some, OnOk, IfOk, IsErrOf};
ghost use Rattle.vfm_outside.specs.Counts.{Rose, Includes};
ghost use Rattle.vfm_outside.specs.Told.{with_appended};
ghost use Rattle.vfm_outside.specs.Links.{ToldEnds, AreNew, ends_faults};

use crate::Link;

/// The links of the two ends: for each end one for control, and its channels in order.
#[derive(Debug, Drop)]
pub struct Ends<L> {
    pub source_control: L,
    pub source: Vec<L>,
    pub dest_control: L,
    pub dest: Vec<L>,
}

/// Why the two ends weren't connected.
#[derive(Clone, Copy, Debug, PartialEq, Eq)]
pub enum ConnectFault {
    /// The wires failed, and have counted it.
    Failed,
    /// Memory ran out.
    NoMemory,
}

/// What makes the links between the two ends, and takes them in again.
pub trait Wires {
    ghost use Rattle.vfm_outside.specs.Carried.{told_by, ends_told};

    type L: Link;

    /// How often `connect` has failed, and the faults of all the links that were taken back.
    ghost faults: { Self → ℕ };

    /// The numbers of channels that were asked for, where the wires report them. A call that ran out of memory isn't
    /// among them.
    ghost asked: { Self → Option (List ℕ) };

    /// What the links that were taken back last report, if there were any. All wires report it: of each link whether it
    /// has ended and how often it failed, and what it sent and received where the link reported that.
    ghost carried: { Self → Option ToldEnds };

    /// One control link and `channels` channels for each end, all of them new.
    fn connect(&mut self, channels: u32) -> Result<Ends<Self::L>, ConnectFault>
        ensures ends { IfOk result (λ ends. AreNew channels
            (ends_told (told_by Self.L.ended Self.L.failed_out Self.L.failed_in Self.L.sent Self.L.received) ends)) }
        ensures never_falls { faults self.old ≤ faults self.new }
        ensures ok { OnOk result (faults self.new ≡ faults self.old) }
        ensures failed { IsErrOf result ConnectFault.Failed → Rose (faults self.old) (faults self.new) }
        ensures no_memory { IsErrOf result ConnectFault.NoMemory → faults self.new ≡ faults self.old }
        ensures asked { (IsErrOf result ConnectFault.NoMemory → ⊥) → asked self.new ≡ with_appended (asked self.old) (channels ∷ []) }
        ensures not_asked { IsErrOf result ConnectFault.NoMemory → asked self.new ≡ asked self.old }
        ensures carried { carried self.new ≡ carried self.old };

    /// Takes the links in again, and their faults with them.
    fn back(&mut self, ends: Ends<Self::L>)
        ensures carried { carried self.new ≡ Some
            (ends_told (told_by Self.L.ended Self.L.failed_out Self.L.failed_in Self.L.sent Self.L.received) ends) }
        ensures count { Includes (faults self.old) (ends_faults
            (ends_told (told_by Self.L.ended Self.L.failed_out Self.L.failed_in Self.L.sent Self.L.received) ends)) (faults self.new) }
        ensures asked { asked self.new ≡ asked self.old };
}
