//! Wires over TCP, on the loopback address.

ghost use Rattle.std.specs.Prelude.{◌≡◌, ◌≤◌, ◌∷◌, IsErrOf, ◌+◌, [], Option, Some, None, OnOk, IfOk, All, length, map, vec_len};
ghost use Rattle.std.specs.Option.{option_map};
ghost use Rattle.vfm_outside.specs.Counts.{Rose, Includes, counted};
ghost use Rattle.vfm_outside.specs.Told.{with_appended};
ghost use Rattle.vfm_outside.specs.Links.{IsNew, AreNew, ends_faults};
ghost use Rattle.vfm_net.specs.TcpEnds.{tcp_told, tcp_ends, held_tcp_faults};

use crate::TcpLink;
use crate::meeting::Meeting;
use std::alloc::Global;
use std::io::{Read, Write};
use std::net::{Net, OpenStream};
use std::time::Duration;
use vfm_outside::{ConnectFault, Ends, Wires, all_faults};

/// Wires over TCP on the loopback address, with a port that the system picks at each `connect`. Nothing but the two ends
/// of one `connect` becomes a link of them. They report what was asked for.
#[derive(Drop)]
pub struct TcpWires<'n, R: Net> {
    net: &'n R,
    alloc: Global,
    patience: Duration,
    back: Option<Ends<TcpLink<R::Stream>>>,
    asked: Vec<u32>,
    faults: u64,
}

impl<'n, R: Net> TcpWires<'n, R> {
    /// Wires whose links fail at a call that waits longer than `patience`. With a patience of zero no link is made.
    pub fn of(net: &'n R, alloc: Global, patience: Duration) -> TcpWires<'n, R>
        ensures asked { result.asked.items ≡ [] }
        ensures back { result.back ≡ None }
        ensures faults { result.faults ≡ 0 }
    {
        TcpWires {
            net,
            alloc,
            patience,
            back: None,
            asked: Vec::new(alloc),
            faults: 0,
        }
    }
}

// The channels of the two ends.
#[tactic(auto, using(crate::proofs::Rows::all_new_more))]
fn channels_of<R: Net>(
    meeting: &Meeting<R>,
    alloc: Global,
    channels: u32,
) -> Result<(Vec<TcpLink<R::Stream>>, Vec<TcpLink<R::Stream>>), ConnectFault>
    ensures counts { IfOk result (λ rows. (vec_len rows.0 ≡ channels) × (vec_len rows.1 ≡ channels)) }
    ensures source { IfOk result (λ rows. All IsNew (map tcp_told rows.0.items)) }
    ensures dest { IfOk result (λ rows. All IsNew (map tcp_told rows.1.items)) }
{
    let (Ok(mut source), Ok(mut dest)) = (
        Vec::with_capacity(alloc, channels as usize),
        Vec::with_capacity(alloc, channels as usize),
    ) else {
        return Err(ConnectFault::NoMemory);
    };
    for _ in 0..channels {
        let Some((near, far)) = meeting.pair() else {
            return Err(ConnectFault::Failed);
        };
        source.push(near).unwrap();
        dest.push(far).unwrap();
    }
    Ok((source, dest))
}

// The links of the two ends.
fn ends_of<R: Net>(
    net: &R,
    alloc: Global,
    patience: Duration,
    channels: u32,
) -> Result<Ends<TcpLink<R::Stream>>, ConnectFault>
    ensures new { IfOk result (λ ends. AreNew channels (tcp_ends ends)) }
{
    let Some(meeting) = Meeting::open(net, patience) else {
        return Err(ConnectFault::Failed);
    };
    let Some((source_control, dest_control)) = meeting.pair() else {
        return Err(ConnectFault::Failed);
    };
    let (source, dest) = channels_of(&meeting, alloc, channels)?;
    Ok(Ends {
        source_control,
        source,
        dest_control,
        dest,
    })
}

// Closes the streams of a row of links. What the links report stays.
fn close_row<S: Drop>(links: &mut [TcpLink<S>])
    ensures told { map tcp_told links.new ≡ map tcp_told links.old }
{
    for link in links.iter_mut() {
        link.close();
    }
}

// Closes the streams of all links of the two ends. What the links report stays.
fn close_all<S: Drop>(ends: &mut Ends<TcpLink<S>>)
    ensures told { tcp_ends ends.new ≡ tcp_ends ends.old }
{
    ends.source_control.close();
    close_row(&mut ends.source);
    ends.dest_control.close();
    close_row(&mut ends.dest);
}

impl<'n, R: Net> Wires for TcpWires<'n, R>
where
    R::Stream: Send,
{
    type L = TcpLink<R::Stream>;

    ghost faults = { λ w. counted (w.faults + held_tcp_faults w.back) };

    ghost asked = { λ w. Some w.asked.items };

    ghost carried = { λ w. option_map tcp_ends w.back };

    fn connect(&mut self, channels: u32) -> Result<Ends<TcpLink<R::Stream>>, ConnectFault>
        ensures ends { IfOk result (λ ends. AreNew channels (tcp_ends ends)) }
        ensures never_falls { counted (self.old.faults + held_tcp_faults self.old.back) ≤ counted (self.new.faults + held_tcp_faults self.new.back) }
        ensures ok { OnOk result (counted (self.new.faults + held_tcp_faults self.new.back) ≡ counted (self.old.faults + held_tcp_faults self.old.back)) }
        ensures failed { IsErrOf result ConnectFault.Failed →
            Rose (counted (self.old.faults + held_tcp_faults self.old.back)) (counted (self.new.faults + held_tcp_faults self.new.back)) }
        ensures no_memory { IsErrOf result ConnectFault.NoMemory →
            counted (self.new.faults + held_tcp_faults self.new.back) ≡ counted (self.old.faults + held_tcp_faults self.old.back) }
        ensures asked { (IsErrOf result ConnectFault.NoMemory → ⊥) →
            Some self.new.asked.items ≡ with_appended (Some self.old.asked.items) (channels ∷ []) }
        ensures not_asked { IsErrOf result ConnectFault.NoMemory → Some self.new.asked.items ≡ Some self.old.asked.items }
        ensures carried { option_map tcp_ends self.new.back ≡ option_map tcp_ends self.old.back }
    {
        if self.asked.reserve(1).is_err() {
            return Err(ConnectFault::NoMemory);
        }
        let made = ends_of(self.net, self.alloc, self.patience, channels);
        if let Err(ConnectFault::NoMemory) = made {
            return made;
        }
        self.asked.push(channels).unwrap();
        if made.is_err() {
            self.faults = self.faults.saturating_add(1);
        }
        made
    }

    #[tactic(auto, using(vfm_outside::proofs::EndsLemmas::told_ends))]
    fn back(&mut self, ends: Ends<TcpLink<R::Stream>>)
        ensures carried { option_map tcp_ends self.new.back ≡ Some (tcp_ends ends) }
        ensures count { Includes (counted (self.old.faults + held_tcp_faults self.old.back)) (ends_faults (tcp_ends ends))
            (counted (self.new.faults + held_tcp_faults self.new.back)) }
        ensures asked { Some self.new.asked.items ≡ Some self.old.asked.items }
    {
        if let Some(before) = self.back.take() {
            self.faults = self.faults.saturating_add(all_faults(&before));
        }
        let mut closed = ends;
        close_all(&mut closed);
        self.back = Some(closed);
    }
}
