//! All streams of a move.

ghost use Rattle.std.specs.Prelude.{◌≡◌, ◌≤◌, [], length, vec_capacity};
ghost use Rattle.vfm_streams.specs.Whole.{is_config};

use crate::StreamIntake;
use std::alloc::Global;
use vfm_mesh::{Parcel, Payload};
use vfm_packet::{Header, Kind};
use vfm_plain::Part;
use vfm_types::{Desc, NoMemory};

/// Takes the parcels of all streams in whatever order they come: stream 0 is memory, stream d + 1 is device d.
#[derive(Drop)]
pub struct Intake {
    pub(crate) streams: Vec<StreamIntake>,
    // room for the part of each stream
    pub(crate) parts: Vec<Part>,
    ghost empty: { parts.items ≡ [] },
    ghost room: { length streams.items ≤ vec_capacity parts },
}

impl Intake {
    ghost use Rattle.std.specs.Prelude.{◌≡◌, ◌+◌, ◌<◌, ℕ, List, [], length, IfOk, OnOk, OnErr};
    ghost use Rattle.vfm_types.specs.declared.desc.Desc.{Desc};
    ghost use Rattle.vfm_types.specs.Desc.{device_count};
    ghost use Rattle.vfm_types.specs.Valid.{IsValid};
    ghost use Rattle.vfm_packet.specs.Packet.{Packet};
    ghost use Rattle.vfm_mesh.specs.declared.parcel.Parcel.TheVariants as parcels;
    ghost use Rattle.vfm_intake.specs.Intakes.{streams_in, stream_count, AreStreamsOf, IsIntakeOf, HasTaken, with_parcel};

    /// An intake to which nothing came. Takes all room that the parts of the machine need.
    pub fn of(alloc: Global, desc: &Desc) -> Result<Intake, NoMemory>
        requires { IsValid desc.now }
        ensures made { IfOk result (λ intake. IsIntakeOf intake desc.now) }
        ensures nothing { IfOk result (λ intake. HasTaken intake desc.now (λ s. [])) }
    {
        let count = desc.devices.len() + 1;
        let parts = Vec::with_capacity(alloc, count as usize)?;
        let mut streams = Vec::with_capacity(alloc, count as usize)?;
        for stream in 0..count {
            streams.push(StreamIntake::of(alloc, desc, stream)?)?;
        }
        Ok(Intake { streams, parts })
    }

    /// An intake of these streams, which are those of the description, in their order.
    pub fn of_streams(
        alloc: Global,
        desc: &Desc,
        streams: Vec<StreamIntake>,
    ) -> Result<Intake, NoMemory>
        requires valid { IsValid desc.now }
        requires count { length streams.items ≡ device_count desc.now + 1 }
        requires each { AreStreamsOf desc.now streams.items }
        ensures made { IfOk result (λ intake. IsIntakeOf intake desc.now) }
        ensures streams { IfOk result (λ intake. streams_in intake ≡ streams.items) }
    {
        let parts = Vec::with_capacity(alloc, streams.len())?;
        Ok(Intake { streams, parts })
    }

    /// The streams, in their order, so that each may be fed in a thread of its own.
    pub fn into_streams(self) -> Vec<StreamIntake>
        ensures { result.items ≡ streams_in self }
    {
        let Intake { streams, parts: _ } = self;
        streams
    }

    /// Takes a parcel of a stream. A packet goes to its stream, and all that are in turn then are applied; the mark changes
    /// nothing. Where memory runs out the packet is dropped, and nothing changes.
    pub fn take(&mut self, desc: &Desc, stream: u32, parcel: Parcel) -> Result<(), NoMemory>
        requires made { IsIntakeOf self.old desc.now }
        requires known { stream < stream_count self.old }
        ensures made { IsIntakeOf self.new desc.now }
        ensures taken { OnOk result ((came : ℕ → List Packet) → HasTaken self.old desc.now came
            → HasTaken self.new desc.now (with_parcel came stream parcel)) }
        ensures unchanged { OnErr result ((came : ℕ → List Packet) → HasTaken self.old desc.now came
            → HasTaken self.new desc.now came) }
        ensures streams { stream_count self.new ≡ stream_count self.old }
    {
        match parcel {
            Parcel::Packet { head, payload } => self.take_packet(
                desc,
                stream as usize,
                head,
                payload,
            ),
            Parcel::Close => Ok(()),
        }
    }

    // The same of a packet.
    fn take_packet(
        &mut self,
        desc: &Desc,
        stream: usize,
        head: Header,
        payload: Payload,
    ) -> Result<(), NoMemory>
        requires made { IsIntakeOf self.old desc.now }
        requires known { stream < stream_count self.old }
        ensures made { IsIntakeOf self.new desc.now }
        ensures taken { OnOk result ((came : ℕ → List Packet) → HasTaken self.old desc.now came
            → HasTaken self.new desc.now (with_parcel came stream (parcels.Packet head payload))) }
        ensures unchanged { OnErr result ((came : ℕ → List Packet) → HasTaken self.old desc.now came
            → HasTaken self.new desc.now came) }
        ensures streams { stream_count self.new ≡ stream_count self.old }
    {
        let config = is_config(head.kind);
        self.streams[stream].take(desc, head.index, config, payload)
    }
}

// Whether a packet of this kind is a config packet.
fn is_config(kind: Kind) -> bool
    ensures { result ≡ is_config kind }
{
    match kind {
        Kind::Config => true,
        Kind::Data | Kind::End | Kind::Abort => false,
    }
}
