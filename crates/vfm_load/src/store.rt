//! What is stored of a stream, whichever it is.

ghost use Rattle.std.specs.Prelude.{◌≡◌, ◌≤◌, ◌∷◌, ℕ, List, [], Some, None, false, IfOk, MatchResult};
ghost use Rattle.vfm_types.specs.declared.desc.Desc.{Desc};
ghost use Rattle.vfm_types.specs.Desc.{device_count};
ghost use Rattle.vfm_types.specs.Valid.{IsValid};
ghost use Rattle.vfm_packet.specs.declared.header.Kind.{Kind};
ghost use Rattle.vfm_record.specs.Record.{Record, record_of, IsRecordOf, IsWhole};
ghost use Rattle.vfm_streams.specs.Whole.{is_config};
ghost use Rattle.vfm_streams.specs.Judged.{lacks, stand_fault};
ghost use Rattle.vfm_load.specs.Stores.{is_digest, FitsStore, HoldsStore};
ghost use Rattle.vfm_load.specs.Parts.{loaded_part, IsPartOf};

use crate::device::DeviceStore;
use crate::pages::PageStore;
use std::alloc::Global;
use vfm_plain::Part;
use vfm_record::Rec;
use vfm_types::{Desc, NoMemory};

/// The pages of memory, or one device. Only `of` takes memory.
#[derive(Drop)]
pub enum Store {
    Pages(PageStore),
    Device(DeviceStore),
}

impl Store {
    /// What is stored of a stream of which nothing came: stream 0 is memory, stream `d + 1` is device `d`.
    pub fn of(alloc: Global, desc: &Desc, stream: u32) -> Result<Store, NoMemory>
        requires valid { IsValid desc.now }
        requires known { stream ≤ device_count desc.now }
        ensures fits { IfOk result (FitsStore desc.now stream) }
        ensures holds { IfOk result (HoldsStore desc.now stream []) }
    {
        if stream == 0 {
            return Ok(Store::Pages(PageStore::of(alloc, desc)?));
        }
        let device = DeviceStore::of(alloc, desc.devices.at(stream - 1))?;
        Ok(Store::Device(device))
    }

    /// Puts in what a record of the stream says that is no digest, or answers the place at which it can't stand behind
    /// those before it.
    pub fn take(&mut self, desc: &Desc, stream: u32, rec: Rec) -> Result<(), u32>
        requires valid { IsValid desc.now }
        requires known { stream ≤ device_count desc.now }
        requires of_stream { IsRecordOf desc.now stream (record_of rec) }
        requires whole { IsWhole rec }
        requires data_ { is_digest (record_of rec) ≡ false }
        requires fits { FitsStore desc.now stream self.old }
        ensures fits { FitsStore desc.now stream self.new }
        ensures taken { (records : List Record) (kind : Kind) → HoldsStore desc.now stream records self.old
            → is_config kind ≡ false → let fault = stand_fault desc.now stream kind records (record_of rec.entry) in
            MatchResult result
            (λ _. (fault ≡ None) × HoldsStore desc.now stream (record_of rec.entry ∷ records) self.new)
            (λ place. fault ≡ Some place) }
    {
        match self {
            Store::Pages(pages) => {
                if let Rec::Page { p, bytes } = rec {
                    pages.put(p, bytes);
                }
                Ok(())
            }
            Store::Device(device) => device.take(desc, stream, rec),
        }
    }

    /// The part, where everything came; else the least page or block that never came, or what stands for the rest.
    pub fn finish(self) -> Result<Part, u32>
        ensures exact { (D : Desc) (s : ℕ) (records : List Record) → FitsStore D s self → HoldsStore D s records self
            → MatchResult result (λ part. (lacks D s records ≡ None) × (part ≡ loaded_part D s records))
            (λ least. lacks D s records ≡ Some least) }
        ensures part { IfOk result (λ part. (D : Desc) (s : ℕ) → FitsStore D s self → IsPartOf D s part) }
    {
        match self {
            Store::Pages(pages) => match pages.finish() {
                Ok(sheets) => Ok(Part::Pages(sheets)),
                Err(least) => Err(least),
            },
            Store::Device(device) => device.finish(),
        }
    }
}
