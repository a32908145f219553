//! Reading a description from its source.

ghost use Rattle.std.specs.Prelude.{◌≡◌, IfErr, IfOk, Ok};
ghost use Rattle.vfm_types.specs.Valid.{IsValid};
ghost use Rattle.vfm_outside.specs.Tells.{source_tells};
ghost use Rattle.vfm_desc.specs.Described.{description_of};
ghost use Rattle.vfm_top.specs.Call.{read_limit, IsPrefixRead};
ghost use Rattle.vfm_top.specs.Sources.{IsDescribed, IsRefusal, IsUndescribed};
ghost use Rattle.vfm_top.specs.Sources as spec;

use crate::Status;
use std::alloc::Global;
use vfm_desc::{MOST_BYTES, read_desc};
use vfm_outside::{ReadFault, Source, read_up_to};
use vfm_types::{Desc, DescFault};

/// The status of a description that is none: that of its fault, but that memory ran out is one of its own.
fn status_of(fault: DescFault) -> Status
    ensures { result ≡ spec.status_of fault }
{
    match fault {
        DescFault::NoMemory => Status::NoMemory,
        fault => Status::BadDescription(fault),
    }
}

/// The machine that the bytes describe, or the status of their fault.
fn described(alloc: Global, bytes: &[u8]) -> Result<Desc, Status>
    ensures valid { IfOk result (λ desc. IsValid desc) }
    ensures described { IfOk result (λ desc. description_of bytes.now ≡ Ok desc) }
    ensures refused { IfErr result (IsRefusal bytes.now) }
{
    match read_desc(alloc, bytes) {
        Ok(desc) => Ok(desc),
        Err(fault) => Err(status_of(fault)),
    }
}

/// Reads a description, to its end or up to one byte more than it may have: the machine that it describes, or the status
/// that comes of it.
pub fn read_description<D: Source>(alloc: Global, desc: &mut D) -> Result<Desc, Status>
    ensures described { IfOk result (IsDescribed (source_tells (D.left desc.old) (D.faults desc.old)) (source_tells (D.left desc.new) (D.faults desc.new))) }
    ensures undescribed { IfErr result (IsUndescribed (source_tells (D.left desc.old) (D.faults desc.old)) (source_tells (D.left desc.new) (D.faults desc.new))) }
    ensures read { IsPrefixRead read_limit (source_tells (D.left desc.old) (D.faults desc.old)) (source_tells (D.left desc.new) (D.faults desc.new)) }
{
    match read_up_to(alloc, desc, MOST_BYTES + 1) {
        Err(ReadFault::Failed) => Err(Status::ReadFault),
        Err(ReadFault::NoMemory) => Err(Status::NoMemory),
        Ok(bytes) => described(alloc, bytes.as_slice()),
    }
}
