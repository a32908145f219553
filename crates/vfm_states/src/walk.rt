//! The next state towards a target, and the whole path to it.

ghost use Rattle.std.specs.Prelude.{◌≡◌, IsTrue, IfOk};
ghost use Rattle.vfm_types.specs.Paths.{next_of, path_of, next_towards, path_refusal, supports};
ghost use Rattle.vfm_states.specs.Refusals.{RefusesInOrder, refusal_in};

use crate::route::Route;
use crate::table::{has_state, step};
use vfm_types::{Flags, MigState, PathFault};

/// The first state after `from` on the way to `to` that a device with these flags has; `to` itself where the two are the same.
///
/// The refusals come in this order: out of `ERROR`; to `ERROR`; from a state that the device lacks; to such a state;
/// and out of `STOP_COPY` into `PRE_COPY` or `PRE_COPY_P2P`. They come first also from a state to itself.
pub fn next_state(from: MigState, to: MigState, flags: Flags) -> Result<MigState, PathFault>
    ensures value { result ≡ next_of from to flags }
    ensures refusals { RefusesInOrder from to flags (refusal_in result) }
    ensures supported { IfOk result (λ next. IsTrue (supports flags next)) }
    ensures arrived { from ≡ to → IfOk result (λ next. next ≡ to) }
{
    if let Some(fault) = refusal(from, to, flags) {
        return Err(fault);
    }
    Ok(walked(from, to, flags))
}

/// `from`, then each next state, up to `to`, which stands last. The refusals are those of `next_state`.
pub fn path(from: MigState, to: MigState, flags: Flags) -> Result<Route, PathFault>
    ensures value { result ≡ path_of from to flags }
    ensures refusals { RefusesInOrder from to flags (refusal_in result) }
{
    if let Some(fault) = refusal(from, to, flags) {
        return Err(fault);
    }
    let mut route = Route::starting_at(from);
    let mut state = from;
    for _step in 0..4u32 {
        if state.number() == to.number() {
            break;
        }
        state = walked(state, to, flags);
        route.go_to(state);
    }
    Ok(route)
}

/// The next state towards another, past a state that the device lacks; the state itself where the table refuses the way.
/// Unlike `next_state` it doesn't ask whether there is a path.
pub fn next_towards(from: MigState, to: MigState, flags: Flags) -> MigState
    ensures { result ≡ next_towards from to flags }
{
    walked(from, to, flags)
}

// Why there is no path, by the first cause that stands.
fn refusal(from: MigState, to: MigState, flags: Flags) -> Option<PathFault>
    ensures value { result ≡ path_refusal from to flags }
    ensures order { RefusesInOrder from to flags result }
{
    if from.number() == MigState::Error.number() {
        return Some(PathFault::FromError);
    }
    if to.number() == MigState::Error.number() {
        return Some(PathFault::Forbidden { from, to });
    }
    if !has_state(flags, from) {
        return Some(PathFault::Unsupported(from));
    }
    if !has_state(flags, to) {
        return Some(PathFault::Unsupported(to));
    }
    match step(from, to) {
        None => Some(PathFault::Forbidden { from, to }),
        Some(_) => None,
    }
}

// The next state, past a state that the device lacks; the state itself where the table refuses the way.
fn walked(from: MigState, to: MigState, flags: Flags) -> MigState
    ensures { result ≡ next_towards from to flags }
{
    let first = step(from, to).unwrap_or(from);
    if has_state(flags, first) {
        first
    } else {
        step(first, to).unwrap_or(first)
    }
}
