//! Wires over rings in memory.

ghost use Rattle.std.specs.Prelude.{◌≡◌, ◌+◌, ◌<◌, ◌≤◌, ◌^◌, ◌∷◌, [], Option, Some, None, OnOk, IfOk, IsErrOf, vec_len};
ghost use Rattle.std.specs.List.{filter_map};
ghost use Rattle.std.specs.Option.{option_map};
ghost use Rattle.vfm_outside.specs.Counts.{Rose, Includes, counted};
ghost use Rattle.vfm_outside.specs.Told.{with_appended};
ghost use Rattle.vfm_outside.specs.Links.{IsNew, AreNew, ends_faults};
ghost use Rattle.vfm_outside.specs.RingEnds.{ring_told, ring_ends, held_ring_faults, call_of, settings_of, IsMade, AreJoined, AreRows, AreNumbered, AreConnected};
ghost use Rattle.vfm_outside.specs.RingSettings.{wires_settings};

use crate::faults::all_faults;
use crate::ring_link::RingLink;
use crate::{ConnectFault, Ends, Wires};
use rtrb::RingBuffer;
use std::alloc::Global;
use vfm_types::NoMemory;

/// Wires whose links lead through rings in memory, two for each pair of links. They tell what was asked for, and fail at
/// no call.
#[derive(Drop)]
pub struct RingWires {
    alloc: Global,
    slots: usize,
    patience: u64,
    fail: Vec<(u32, u32)>,
    back: Option<Ends<RingLink>>,
    asked: Vec<u32>,
    faults: u64,
}

// How the links of a pair are made.
#[derive(Clone, Copy)]
struct Plan<'a> {
    alloc: Global,
    slots: usize,
    patience: u64,
    fail: &'a [(u32, u32)],
}

impl RingWires {
    /// Wires whose rings have so many slots, at least 1, of 256 bytes each. A link that finds no slot or no piece looks
    /// again `patience` times. Pair `(l, c)` in `fail` makes call `c` on link `l` fail: source control is link 0,
    /// destination control 1, source channel `k` is `2 + 2k` and destination channel `k` is `3 + 2k`; the calls of a link
    /// are numbered from 0.
    pub fn of(alloc: Global, slots: usize, patience: u64, fail: Vec<(u32, u32)>) -> RingWires
        requires { 0 < slots }
        ensures asked { ⟦<RingWires as Wires>⟧.asked result ≡ Some [] }
        ensures carried { ⟦<RingWires as Wires>⟧.carried result ≡ None }
        ensures faults { ⟦<RingWires as Wires>⟧.faults result ≡ 0 }
        ensures settings { wires_settings result ≡ settings_of fail.items slots patience }
    {
        RingWires {
            alloc,
            slots,
            patience,
            fail,
            back: None,
            asked: Vec::new(alloc),
            faults: 0,
        }
    }
}

// The numbers of the calls of a link that are to fail.
fn calls_of(plan: &Plan, link: u64) -> Result<Vec<u32>, NoMemory>
    ensures { IfOk result (λ calls. calls.items ≡ filter_map (call_of link) plan.now.fail.now) }
{
    let calls = plan.fail.iter().filter_map(|pair| {
        if u64::from(pair.0) == link {
            Some(pair.1)
        } else {
            None
        }
    });
    Ok(calls.collect(plan.alloc)?)
}

// Two new links, each of which receives what the other sends: this one, and the one of the next number.
fn pair_of(plan: &Plan, link: u64) -> Result<(RingLink, RingLink), NoMemory>
    requires { link + 1 < 2 ^ 64 }
    ensures new { IfOk result (λ pair. IsNew (ring_told pair.0) × IsNew (ring_told pair.1)) }
    ensures made { let settings = settings_of plan.now.fail.now plan.now.slots plan.now.patience in
        IfOk result (λ pair. IsMade settings link pair.0 × IsMade settings (link + 1) pair.1) }
    ensures joined { IfOk result (λ pair. AreJoined pair.0 pair.1) }
{
    let (near_out, far_in) = RingBuffer::new(plan.alloc, plan.slots)?;
    let (far_out, near_in) = RingBuffer::new(plan.alloc, plan.slots)?;
    let near = RingLink::of(near_out, near_in, plan.patience, calls_of(plan, link)?);
    let far = RingLink::of(far_out, far_in, plan.patience, calls_of(plan, link + 1)?);
    Ok((near, far))
}

// The channels of the two ends.
fn channels_of(plan: &Plan, channels: u32) -> Result<(Vec<RingLink>, Vec<RingLink>), NoMemory>
    ensures rows { let settings = settings_of plan.now.fail.now plan.now.slots plan.now.patience in
        IfOk result (λ rows. AreRows settings channels rows.0.items rows.1.items) }
{
    let mut source = Vec::with_capacity(plan.alloc, channels as usize)?;
    let mut dest = Vec::with_capacity(plan.alloc, channels as usize)?;
    for k in 0..channels {
        let (near, far) = pair_of(plan, 2 + 2 * u64::from(k))?;
        source.push(near)?;
        dest.push(far)?;
    }
    Ok((source, dest))
}

// The links of the two ends.
fn ends_of(plan: &Plan, channels: u32) -> Result<Ends<RingLink>, NoMemory>
    ensures new { IfOk result (λ ends. AreNew channels (ring_ends ends)) }
    ensures numbered { IfOk result (AreNumbered (settings_of plan.now.fail.now plan.now.slots plan.now.patience)) }
    ensures connected { IfOk result AreConnected }
{
    let (source_control, dest_control) = pair_of(plan, 0)?;
    let (source, dest) = channels_of(plan, channels)?;
    Ok(Ends {
        source_control,
        source,
        dest_control,
        dest,
    })
}

impl Wires for RingWires {
    type L = RingLink;

    ghost faults = { λ w. counted (w.faults + held_ring_faults w.back) };

    ghost asked = { λ w. Some w.asked.items };

    ghost carried = { λ w. option_map ring_ends w.back };

    fn connect(&mut self, channels: u32) -> Result<Ends<RingLink>, ConnectFault>
        ensures ends { IfOk result (λ ends. AreNew channels (ring_ends ends)) }
        ensures never_falls { ⟦<RingWires as Wires>⟧.faults self.old ≤ ⟦<RingWires as Wires>⟧.faults self.new }
        ensures ok { OnOk result (⟦<RingWires as Wires>⟧.faults self.new ≡ ⟦<RingWires as Wires>⟧.faults self.old) }
        ensures failed { IsErrOf result ConnectFault.Failed →
            Rose (⟦<RingWires as Wires>⟧.faults self.old) (⟦<RingWires as Wires>⟧.faults self.new) }
        ensures no_memory { IsErrOf result ConnectFault.NoMemory →
            ⟦<RingWires as Wires>⟧.faults self.new ≡ ⟦<RingWires as Wires>⟧.faults self.old }
        ensures asked { (IsErrOf result ConnectFault.NoMemory → ⊥) → ⟦<RingWires as Wires>⟧.asked self.new ≡
            with_appended (⟦<RingWires as Wires>⟧.asked self.old) (channels ∷ []) }
        ensures not_asked { IsErrOf result ConnectFault.NoMemory →
            ⟦<RingWires as Wires>⟧.asked self.new ≡ ⟦<RingWires as Wires>⟧.asked self.old }
        ensures carried { ⟦<RingWires as Wires>⟧.carried self.new ≡ ⟦<RingWires as Wires>⟧.carried self.old }
        // memory alone refuses it
        ensures memory_alone { IsErrOf result ConnectFault.Failed → ⊥ }
        // each link is made as the wires say, by its number
        ensures numbered { IfOk result (AreNumbered (wires_settings self.old)) }
        ensures connected { IfOk result AreConnected }
        ensures settings { wires_settings self.new ≡ wires_settings self.old }
    {
        if self.asked.reserve(1).is_err() {
            return Err(ConnectFault::NoMemory);
        }
        let plan = Plan {
            alloc: self.alloc,
            slots: self.slots,
            patience: self.patience,
            fail: &self.fail,
        };
        let Ok(ends) = ends_of(&plan, channels) else {
            return Err(ConnectFault::NoMemory);
        };
        self.asked.push(channels).unwrap();
        Ok(ends)
    }

    #[tactic(auto, using(crate::proofs::EndsLemmas::told_ends))]
    fn back(&mut self, ends: Ends<RingLink>)
        ensures carried { ⟦<RingWires as Wires>⟧.carried self.new ≡ Some (ring_ends ends) }
        ensures count { Includes (⟦<RingWires as Wires>⟧.faults self.old) (ends_faults (ring_ends ends))
            (⟦<RingWires as Wires>⟧.faults self.new) }
        ensures asked { ⟦<RingWires as Wires>⟧.asked self.new ≡ ⟦<RingWires as Wires>⟧.asked self.old }
        ensures settings { wires_settings self.new ≡ wires_settings self.old }
    {
        if let Some(before) = self.back.take() {
            self.faults = self.faults.saturating_add(all_faults(&before));
        }
        self.back = Some(ends);
    }
}
