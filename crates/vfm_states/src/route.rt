//! A path as a small value: one to five states, in the order in which a device goes through them.

ghost use Rattle.std.specs.Prelude.{◌≡◌, ◌<◌, ◌≤◌, ◌∷◌, ◌++◌, [], length, slice_get, Some};

use std::marker::Model;
use vfm_types::MigState;

/// The states of a path, its first and its last among them.
#[derive(Debug, Drop)]
pub struct Route {
    states: [MigState; 5],
    len: u8,
}

impl Model for Route {
    ghost use Rattle.std.specs.Prelude.{List, ◌≡◌, ◌≤◌, length, take};
    ghost use Rattle.vfm_types.specs.declared.state.MigState.{MigState};

    ghost Value = { List MigState };

    ghost view = { λ r. take r.len r.states };

    ghost invariant = { λ r. (1 ≤ r.len) × (r.len ≤ 5) × (length r.states ≡ 5) };
}

impl Route {
    /// How many states the path has: 1 to 5.
    pub fn len(&self) -> u32
        ensures value { result ≡ length self.now }
        ensures bounds { (1 ≤ result) × (result ≤ 5) }
    {
        self.len as u32
    }

    /// The state at this place, counted from 0.
    pub fn at(&self, i: u32) -> MigState
        requires { i < length self.now }
        ensures { slice_get self.now i ≡ Some result }
    {
        self.states[i as usize]
    }

    // The path that has only its first state.
    pub(crate) fn starting_at(state: MigState) -> Route
        ensures { result ≡ state ∷ [] }
    {
        Route {
            states: [state; 5],
            len: 1,
        }
    }

    // Goes on to one more state.
    pub(crate) fn go_to(&mut self, state: MigState)
        requires { length self.old < 5 }
        ensures { self.new ≡ self.old ++ state ∷ [] }
    {
        self.states[self.len as usize] = state;
        self.len += 1;
    }
}
