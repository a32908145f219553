//! The source of a move: its machine, and how far the move has come.

ghost use Rattle.std.specs.Prelude.{◌≡◌, ◌≢◌, ◌≤◌, ◌||◌, ◌++◌, ◌∷◌, List, [], None, Err, is_ok, length, map, if◌then◌else◌, IfOk, IfSome, IfNone, OnOk, OnErr, IsFalse, IsTrue};
ghost use Rattle.vfm_types.specs.declared.entry.Entry.{Entry as Item};
ghost use Rattle.vfm_types.specs.declared.entry.Entry.TheVariants.{Abort};
ghost use Rattle.vfm_types.specs.Deliveries.{joint_machine};
ghost use Rattle.vfm_types.specs.Phases.{is_joint};
ghost use Rattle.vfm_types.specs.Valid.{IsValid};
ghost use Rattle.vfm_control.specs.declared.frame.Frame.TheVariants.{Go};
ghost use Rattle.vfm_control.specs.Frame.{frame_bytes};
ghost use Rattle.vfm_core.specs.CoreState.{FitsDesc, IsAfter, first_core};
ghost use Rattle.vfm_drive.specs.Endings.{HasGivenUp};
ghost use Rattle.vfm_handshake.specs.declared.fault.SettleFault.TheVariants as settling;
ghost use Rattle.vfm_handshake.specs.Control.{Settles};
ghost use Rattle.vfm_order.specs.LookAfter.{is_over};
ghost use Rattle.vfm_outside.specs.Counts.{CountsFaults, Rose};
ghost use Rattle.vfm_outside.specs.Told.{with_appended};
ghost use Rattle.vfm_send.specs.Sends.{SentPrefix};
ghost use Rattle.vfm_source.specs.declared.phase.Phase.TheVariants as phases;
ghost use Rattle.vfm_plain.specs.Shape.{HasShape};
ghost use Rattle.vfm_plain.specs.StateText.{state_digest};
ghost use Rattle.vfm_core.specs.Machines.{machine_in};
ghost use Rattle.vfm_source.specs.Moving.{past_in};
ghost use Rattle.vfm_source.specs.Offers.{AllFinished, AllSent, FailsBeforePass, HasCause, IsComplete, StopsAtPass, TellsFail, offer_of, told, with_digest};
ghost use Rattle.vfm_source.specs.Rounds.{HearAsBefore, words};
ghost use Rattle.vfm_source.specs.Source.{IsSource, Moves};

use crate::fault::OfferFault;
use crate::offering::send_move;
use crate::phase::Phase;
use std::alloc::Global;
use std::marker::Model;
use vfm_core::Core;
use vfm_handshake::SettleFault;
use vfm_outside::Link;
use vfm_plain::Plain;
use vfm_types::{Desc, LinkFault, NoMemory};

/// The source of a move. It has the machine on its move, room for the machine at the joint stop, and the digest of what it
/// sent. Only `of` and `offer` take memory.
#[derive(Drop)]
pub struct Mover {
    core: Core,
    // the machine at the joint stop, once that was reached
    joint: Plain,
    // the SHA-256 of the state that was sent, once it was
    digest: [u8; 32],
    phase: Phase,
}

impl Model for Mover {
    ghost use Rattle.vfm_source.specs.Source.{IsSource, MoverState};

    ghost Value = { MoverState };

    ghost view = { λ m. record {
      core = m.core;
      joint = m.joint;
      digest = m.digest;
      phase = m.phase;
    } };

    ghost invariant = { λ m. IsSource m.core m.joint m.phase };
}

impl Mover {
    /// A source with the machine as described, on which nothing was moved yet. Takes room for every entry of a run and for
    /// the machine at the joint stop.
    pub fn of(alloc: Global, desc: Desc) -> Result<Mover, NoMemory>
        requires { IsValid desc }
        ensures core { IfOk result (λ mover. mover.core ≡ first_core desc) }
        ensures begins { IfOk result (λ mover. Moves [] mover) }
        ensures phase { IfOk result (λ mover. mover.phase ≡ phases.Fresh) }
    {
        let joint = Plain::of(alloc, &desc)?;
        let core = Core::of(alloc, desc)?;
        Ok(Mover {
            core,
            joint,
            digest: [0; 32],
            phase: Phase::Fresh,
        })
    }

    /// The machine on its move.
    pub fn core(&self) -> &Core
        ensures value { result.now ≡ self.now.core }
        ensures some { IsSource self.now.core self.now.joint self.now.phase }
    {
        &self.core
    }

    /// How far the move has come.
    pub fn phase(&self) -> Phase
        ensures { result ≡ self.now.phase }
    {
        self.phase
    }

    /// Runs the machine and its move to the end of the last pass, sends all of it over the links, and ends each channel.
    /// Answers the digest of the machine at the joint stop. Allowed once, while nothing was offered.
    ///
    /// The links are those of the channels, in their order, and come back so. With `abort_after` above 0 the source is to give
    /// up once that pass has ended. What went wrong is told in this order: an arc that failed, the least channel whose link
    /// failed, the pass after which the source is to give up, want of memory. At a fault each channel whose link didn't fail is
    /// ended all the same: it was told that the source gives up, if it hadn't been ended before. Abort isn't made yet:
    /// `give_up` makes it. Takes memory for what waits to be sent.
    pub fn offer<L: Link>(
        &mut self,
        alloc: Global,
        links: Vec<L>,
        abort_after: u32,
    ) -> (Vec<L>, Result<[u8; 32], OfferFault>)
        requires fresh { self.old.phase ≡ phases.Fresh }
        requires channels { length links.items ≡ self.old.core.desc.channels }
        ensures run { Moves (past_in self.new.core) self.new }
        ensures going { IsFalse (is_over (past_in self.new.core)) }
        ensures desc { self.new.core.desc ≡ self.old.core.desc }
        ensures sent { AllSent (offer_of self.new.core abort_after (map (told L.sent L.finished L.failed_out) links.items)
            (map (told L.sent L.finished L.failed_out) result.0.items)) result.1 }
        ensures cause { HasCause (offer_of self.new.core abort_after (map (told L.sent L.finished L.failed_out) links.items)
            (map (told L.sent L.finished L.failed_out) result.0.items)) result.1 }
        ensures arc_failed { TellsFail (offer_of self.new.core abort_after (map (told L.sent L.finished L.failed_out) links.items)
            (map (told L.sent L.finished L.failed_out) result.0.items)) result.1 }
        ensures pass { StopsAtPass (offer_of self.new.core abort_after (map (told L.sent L.finished L.failed_out) links.items)
            (map (told L.sent L.finished L.failed_out) result.0.items)) result.1 }
        ensures early { FailsBeforePass (offer_of self.new.core abort_after (map (told L.sent L.finished L.failed_out) links.items)
            (map (told L.sent L.finished L.failed_out) result.0.items)) result.1 }
        ensures finished { AllFinished (offer_of self.new.core abort_after (map (told L.sent L.finished L.failed_out) links.items)
            (map (told L.sent L.finished L.failed_out) result.0.items)) }
        ensures complete { IsComplete (offer_of self.new.core abort_after (map (told L.sent L.finished L.failed_out) links.items)
            (map (told L.sent L.finished L.failed_out) result.0.items)) result.1 }
        ensures hear { HearAsBefore (words L.failed_out L.failed_in L.received L.ended) links.items result.0.items }
        ensures digest { IfOk result.1 (λ digest. (digest
            ≡ state_digest self.new.core.desc (joint_machine self.new.core.desc (past_in self.new.core)))
            × (self.new.digest ≡ digest)) }
        ensures phase { self.new.phase ≡ (if is_ok result.1 then phases.Offered else phases.Failed) }
    {
        // so it is until everything is sent
        self.phase = Phase::Failed;
        let (links, result) = send_move(alloc, &mut self.core, &mut self.joint, links, abort_after);
        (links, self.conclude(result))
    }

    // Keeps the digest of the machine, if all of it was sent, and how far the move has come.
    fn conclude(&mut self, outcome: Result<(), OfferFault>) -> Result<[u8; 32], OfferFault>
        ensures answer { result ≡ with_digest self.new.digest outcome }
        ensures fits { FitsDesc self.old.core.desc self.old.core.world }
        ensures core { self.new.core ≡ self.old.core }
        ensures joint { self.new.joint ≡ self.old.joint }
        ensures digest { OnOk outcome (self.new.digest ≡ state_digest self.old.core.desc (machine_in self.old.core.world)) }
        ensures phase { self.new.phase ≡ (if is_ok outcome then phases.Offered else phases.Failed) }
    {
        self.core.desc();
        match outcome {
            Ok(()) => {
                self.digest = self.core.digest();
                self.phase = Phase::Offered;
                Ok(self.digest)
            }
            Err(fault) => {
                self.phase = Phase::Failed;
                Err(fault)
            }
        }
    }

    /// The machine at the joint stop: `Some` exactly where Joint stands in the journal.
    pub fn joint(&self) -> Option<&Plain>
        ensures some { (past : List Item) → Moves past self.now
            → IfSome result (λ joint. IsTrue (is_joint past) × (joint.now ≡ joint_machine self.now.core.desc past)) }
        ensures none { (past : List Item) → Moves past self.now → IfNone result (IsFalse (is_joint past)) }
        ensures shape { IfSome result (λ joint. HasShape self.now.core.desc joint.now) }
    {
        if self.core.look().joint {
            Some(&self.joint)
        } else {
            None
        }
    }

    /// Hears the destination's answer: `Ok` only for a Staged frame with the digest of what was offered. It receives at most 44
    /// bytes, and fewer only where the link ends or fails. `Link` comes only where the count of failed receipts rose. Takes
    /// no memory.
    pub fn settle<L: Link>(&mut self, control: &mut L) -> Result<(), SettleFault>
        requires offered { self.old.phase ≡ phases.Offered }
        ensures settles { Settles self.old.core.desc.session self.old.digest (record {
          before = L.received control.old;
          now = L.received control.new;
          had_ended = L.ended control.old;
          ended = L.ended control.new;
        }) result }
        ensures never_falls { L.failed_in control.old ≤ L.failed_in control.new }
        ensures fault { result ≡ Err settling.Link → Rose (L.failed_in control.old) (L.failed_in control.new) }
        ensures no_fault { result ≢ Err settling.Link → L.failed_in control.new ≡ L.failed_in control.old }
        ensures sent { L.sent control.new ≡ L.sent control.old }
        ensures finished { L.finished control.new ≡ L.finished control.old }
        ensures failed_out { L.failed_out control.new ≡ L.failed_out control.old }
        ensures phase { self.new ≡ record self.old { phase = if is_ok result then phases.Settled else phases.Failed } }
    {
        let session = self.core.desc().session;
        let result = vfm_handshake::settle(control, session, &self.digest);
        self.phase = match result {
            Ok(()) => Phase::Settled,
            Err(_) => Phase::Failed,
        };
        result
    }

    /// Says Go for what was offered, and that nothing more will be said. At a fault a prefix of the frame was sent, or all of
    /// it; the count of what failed to be sent rose. Takes no memory.
    pub fn go<L: Link>(&mut self, control: &mut L) -> Result<(), LinkFault>
        requires settled { self.old.phase ≡ phases.Settled }
        ensures sent { OnOk result (L.sent control.new
            ≡ with_appended (L.sent control.old) (frame_bytes (Go self.old.core.desc.session self.old.digest))) }
        ensures prefix { OnErr result (SentPrefix (L.sent control.old) (L.sent control.new)
            (frame_bytes (Go self.old.core.desc.session self.old.digest))) }
        ensures count { CountsFaults result (L.failed_out control.old) (L.failed_out control.new) }
        ensures finished { L.finished control.new ≡ (L.finished control.old || is_ok result) }
        ensures failed_in { L.failed_in control.new ≡ L.failed_in control.old }
        ensures received { L.received control.new ≡ L.received control.old }
        ensures ended { L.ended control.new ≡ L.ended control.old }
        ensures phase { self.new ≡ record self.old { phase = phases.Gone } }
    {
        self.phase = Phase::Gone;
        let session = self.core.desc().session;
        vfm_handshake::say_go(control, session, &self.digest)
    }

    /// Gives up: makes Abort, then rounds until every device is `RUNNING` and idle. The machine at the joint stop stays as it
    /// was. Allowed once, before Go. Takes no memory.
    pub fn give_up(&mut self)
        requires before_go { self.old.phase ≢ phases.Gone }
        requires once { self.old.phase ≢ phases.GivenUp }
        ensures gives_up { (past : List Item) → IsAfter self.old.core.desc past self.old.core.world
            → IsFalse (is_over past) → HasGivenUp self.old.core self.new.core None past }
        ensures moves { (past : List Item) → Moves past self.old → IsFalse (is_over past)
            → (given : HasGivenUp self.old.core self.new.core None past) → Moves (given.on.more ++ Abort ∷ past) self.new }
        ensures joint { self.new.joint ≡ self.old.joint }
        ensures digest { self.new.digest ≡ self.old.digest }
        ensures phase { self.new.phase ≡ phases.GivenUp }
    {
        self.phase = Phase::GivenUp;
        vfm_drive::give_up(&mut self.core);
    }
}
