//! Wires over links that were made beforehand.

ghost use Rattle.std.specs.Prelude.{◌≡◌, ◌≢◌, ◌≤◌, ◌+◌, [], ◌∷◌, false, ◌==◌, Option, Some, None, OnOk, IfOk, OnErr, IsErrOf, vec_len, sum_by};
ghost use Rattle.std.specs.Option.{ForSome, option_map, option_map_or};
ghost use Rattle.std.proofs.Props.{props};
ghost use Rattle.vfm_outside.specs.Counts.{Rose, Includes, counted};
ghost use Rattle.vfm_outside.specs.Told.{with_appended};
ghost use Rattle.vfm_outside.specs.Links.{AreNew, ends_faults};
ghost use Rattle.vfm_outside.specs.ScriptEnds.{script_ends, EndsAreNew, held_faults};

use crate::faults::all_faults;
use crate::{ConnectFault, Ends, ScriptLink, Wires};
use std::alloc::Global;

/// Wires over links that were made beforehand: the first call that asks for as many channels as there are gets them,
/// and every other call fails. They report what was asked for.
#[derive(Debug, Drop)]
pub struct ScriptWires {
    ends: Option<Ends<ScriptLink>>,
    back: Option<Ends<ScriptLink>>,
    asked: Vec<u32>,
    faults: u64,
    ghost fresh: { ForSome ends EndsAreNew } by { Prim.hlevel props },
}

impl ScriptWires {
    /// Wires with these links, which are new, and as many channels for the one end as for the other.
    pub fn of(alloc: Global, ends: Option<Ends<ScriptLink>>) -> ScriptWires
        requires { ForSome ends EndsAreNew }
        ensures asked { ⟦<ScriptWires as Wires>⟧.asked result ≡ Some [] }
        ensures carried { ⟦<ScriptWires as Wires>⟧.carried result ≡ None }
        ensures faults { ⟦<ScriptWires as Wires>⟧.faults result ≡ 0 }
        ensures ends { result.ends ≡ ends }
    {
        ScriptWires {
            ends,
            back: None,
            asked: Vec::new(alloc),
            faults: 0,
        }
    }
}

// Whether there are links, with so many channels.
fn offers(ends: &Option<Ends<ScriptLink>>, channels: u32) -> bool
    ensures { result ≡ option_map_or (λ ends. vec_len ends.source == channels) ends.now false }
{
    match ends {
        Some(ends) => ends.source.len() == channels as usize,
        None => false,
    }
}

impl Wires for ScriptWires {
    type L = ScriptLink;

    ghost faults = { λ w. counted (w.faults + held_faults w.back) };

    ghost asked = { λ w. Some w.asked.items };

    ghost carried = { λ w. option_map script_ends w.back };

    fn connect(&mut self, channels: u32) -> Result<Ends<ScriptLink>, ConnectFault>
        ensures ends { IfOk result (λ ends. AreNew channels (script_ends ends)) }
        ensures never_falls { ⟦<ScriptWires as Wires>⟧.faults self.old ≤ ⟦<ScriptWires as Wires>⟧.faults self.new }
        ensures ok { OnOk result (⟦<ScriptWires as Wires>⟧.faults self.new ≡ ⟦<ScriptWires as Wires>⟧.faults self.old) }
        ensures failed { IsErrOf result ConnectFault.Failed →
            Rose (⟦<ScriptWires as Wires>⟧.faults self.old) (⟦<ScriptWires as Wires>⟧.faults self.new) }
        ensures no_memory { IsErrOf result ConnectFault.NoMemory →
            ⟦<ScriptWires as Wires>⟧.faults self.new ≡ ⟦<ScriptWires as Wires>⟧.faults self.old }
        ensures asked { (IsErrOf result ConnectFault.NoMemory → ⊥) → ⟦<ScriptWires as Wires>⟧.asked self.new ≡
            with_appended (⟦<ScriptWires as Wires>⟧.asked self.old) (channels ∷ []) }
        ensures not_asked { IsErrOf result ConnectFault.NoMemory →
            ⟦<ScriptWires as Wires>⟧.asked self.new ≡ ⟦<ScriptWires as Wires>⟧.asked self.old }
        ensures carried { ⟦<ScriptWires as Wires>⟧.carried self.new ≡ ⟦<ScriptWires as Wires>⟧.carried self.old }
        ensures given { IfOk result (λ ends. self.old.ends ≡ Some ends) }
        ensures used { OnOk result (self.new.ends ≡ None) }
        ensures kept { OnErr result (self.new.ends ≡ self.old.ends) }
        ensures not_so_many { IsErrOf result ConnectFault.Failed → ForSome self.old.ends (λ ends. vec_len ends.source ≢ channels) }
    {
        if self.asked.push(channels).is_err() {
            return Err(ConnectFault::NoMemory);
        }
        if !offers(&self.ends, channels) {
            self.faults = self.faults.saturating_add(1);
            return Err(ConnectFault::Failed);
        }
        Ok(self.ends.take().unwrap())
    }

    #[tactic(auto, using(crate::proofs::EndsLemmas::told_ends))]
    fn back(&mut self, ends: Ends<ScriptLink>)
        ensures carried { ⟦<ScriptWires as Wires>⟧.carried self.new ≡ Some (script_ends ends) }
        ensures count { Includes (⟦<ScriptWires as Wires>⟧.faults self.old) (ends_faults (script_ends ends))
            (⟦<ScriptWires as Wires>⟧.faults self.new) }
        ensures asked { ⟦<ScriptWires as Wires>⟧.asked self.new ≡ ⟦<ScriptWires as Wires>⟧.asked self.old }
        ensures ends { self.new.ends ≡ self.old.ends }
    {
        if let Some(before) = self.back.take() {
            self.faults = self.faults.saturating_add(all_faults(&before));
        }
        self.back = Some(ends);
    }
}
