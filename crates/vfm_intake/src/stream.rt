//! One stream: its reorder buffer and its loader.

use crate::StreamRefusal;
use std::alloc::Global;
use vfm_load::Loader;
use vfm_mesh::Payload;
use vfm_plain::Part;
use vfm_reorder::{PutFault, ReorderBuf};
use vfm_types::{Desc, NoMemory};

/// Takes the packets of one stream as they come, and applies each as soon as all before it are applied. Owns all that its
/// stream needs, so that it may move to another thread.
#[derive(Drop)]
pub struct StreamIntake {
    buffer: ReorderBuf,
    loader: Loader,
    // the least index that came twice
    doubled: Option<u32>,
}

impl StreamIntake {
    ghost use Rattle.std.specs.Prelude.{◌≡◌, ◌+◌, ◌≤◌, ℕ, List, [], ◌∷◌, ◌++◌, Some, true, false, if◌then◌else◌, IfOk, IfErr, OnOk, OnErr};
    ghost use Rattle.vfm_types.specs.declared.desc.Desc.{Desc};
    ghost use Rattle.vfm_types.specs.Desc.{device_count};
    ghost use Rattle.vfm_types.specs.Valid.{IsValid};
    ghost use Rattle.vfm_packet.specs.Packet.{Packet};
    ghost use Rattle.vfm_streams.specs.Judged.{said, stream_fault};
    ghost use Rattle.vfm_reorder.specs.Buffers.{IsPacket};
    ghost use Rattle.vfm_load.specs.Parts.{IsPartOf, loaded_part};
    ghost use Rattle.vfm_intake_laws.specs.Doubles.{least_told};
    ghost use Rattle.vfm_intake.specs.Causes.{fault_in, NamesDigests};
    ghost use Rattle.vfm_intake.specs.Streams.{stream_in, loaded_count, has_next, IsAtRest, IsFedOf, IsStreamOf, StandsAfter};

    /// An intake of a stream to which nothing came: stream 0 is memory, stream d + 1 is device d. Takes all room that the
    /// part of the machine needs.
    pub fn of(alloc: Global, desc: &Desc, stream: u32) -> Result<StreamIntake, NoMemory>
        requires valid { IsValid desc.now }
        requires known { stream ≤ device_count desc.now }
        ensures made { IfOk result (λ intake. IsStreamOf intake desc.now stream) }
        ensures nothing { IfOk result (λ intake. StandsAfter intake desc.now stream []) }
    {
        let loader = Loader::of(alloc, desc, stream)?;
        Ok(StreamIntake {
            buffer: ReorderBuf::of(alloc),
            loader,
            doubled: None,
        })
    }

    /// Takes a packet: its index, whether it is a config packet, and its payload. All packets that are in turn then are
    /// applied. A packet with an index that came before is dropped, and its index told at the end. Where memory runs out the
    /// packet is dropped, and nothing changes.
    pub fn take(
        &mut self,
        desc: &Desc,
        index: u32,
        config: bool,
        payload: Payload,
    ) -> Result<(), NoMemory>
        requires made { IsStreamOf self.old desc.now (stream_in self.old) }
        ensures made { IsStreamOf self.new desc.now (stream_in self.old) }
        ensures stream { stream_in self.new ≡ stream_in self.old }
        ensures taken { OnOk result ((came : List Packet) (p : Packet) → StandsAfter self.old desc.now (stream_in self.old) came
            → IsPacket p index config payload → StandsAfter self.new desc.now (stream_in self.old) (came ++ p ∷ [])) }
        ensures unchanged { OnErr result ((came : List Packet) → StandsAfter self.old desc.now (stream_in self.old) came
            → StandsAfter self.new desc.now (stream_in self.old) came) }
    {
        match self.buffer.put(index, config, payload) {
            Ok(()) => {
                self.apply_ready(desc);
                Ok(())
            }
            Err(PutFault::Doubled { .. }) => {
                self.tell(index);
                Ok(())
            }
            Err(PutFault::NoMemory) => Err(NoMemory),
        }
    }

    // Tells an index that came twice.
    fn tell(&mut self, index: u32)
        ensures told { self.new.doubled ≡ Some (least_told self.old.doubled index) }
        ensures buffer { self.new.buffer ≡ self.old.buffer }
        ensures loader { self.new.loader ≡ self.old.loader }
    {
        self.doubled = match self.doubled {
            Some(least) => Some(least.min(index)),
            None => Some(index),
        };
    }

    // Applies all packets that are in turn.
    fn apply_ready(&mut self, desc: &Desc)
        requires { IsFedOf self.old desc.now (stream_in self.old) }
        ensures made { IsStreamOf self.new desc.now (stream_in self.old) }
        ensures stands { (came : List Packet) → StandsAfter self.old desc.now (stream_in self.old) came
            → StandsAfter self.new desc.now (stream_in self.old) came }
    {
        while self.apply_next(desc) {}
    }

    // Applies the next packet, and says whether it was there.
    fn apply_next(&mut self, desc: &Desc) -> bool
        requires { IsFedOf self.old desc.now (stream_in self.old) }
        ensures fed { IsFedOf self.new desc.now (stream_in self.old) }
        ensures stands { (came : List Packet) → StandsAfter self.old desc.now (stream_in self.old) came
            → StandsAfter self.new desc.now (stream_in self.old) came }
        ensures more { result ≡ true → loaded_count self.new ≡ loaded_count self.old + 1 }
        ensures most { loaded_count self.new ≤ 4294967296 }
        ensures done { result ≡ false → has_next self.new ≡ false }
    {
        match self.buffer.pop_ready() {
            Some((index, config, payload)) => {
                self.loader.apply(desc, index, config, payload.lent());
                true
            }
            None => false,
        }
    }

    /// The part of the machine that the stream makes, once nothing more comes, or why it makes none. Takes no memory.
    pub fn finish(self) -> Result<Part, StreamRefusal>
        requires { IsAtRest self }
        // the first fault of the stream, whatever the order in which its packets came
        ensures fault { (D : Desc) (s : ℕ) (came : List Packet) → StandsAfter self D s came
            → stream_fault D s came ≡ fault_in result }
        ensures part { IfOk result (λ part. (D : Desc) (s : ℕ) (came : List Packet) → StandsAfter self D s came
            → part ≡ loaded_part D s (said s came)) }
        ensures fits { IfOk result (λ part. (D : Desc) (s : ℕ) → IsStreamOf self D s → IsPartOf D s part) }
        ensures digests { IfErr result (λ refusal. (D : Desc) (s : ℕ) (came : List Packet) → StandsAfter self D s came
            → NamesDigests D s (said s came) refusal) }
    {
        let StreamIntake {
            buffer,
            loader,
            doubled,
        } = self;
        if let Some(index) = doubled {
            return Err(StreamRefusal::Doubled { index });
        }
        match buffer.finish() {
            Ok(_) => match loader.finish() {
                Ok(part) => Ok(part),
                Err(fault) => Err(StreamRefusal::of_load(fault)),
            },
            Err(gap) => Err(StreamRefusal::of_gap(gap)),
        }
    }
}
