//! Laws of records, each a function that does nothing: its clause holds of every value.

ghost use Rattle.std.specs.Prelude.{◌≡◌, ℕ, ◌≤◌, ◌↔◌, List, None, length};
ghost use Rattle.vfm_types.specs.declared.desc.Desc.{Desc};
ghost use Rattle.vfm_types.specs.Desc.{device_count};
ghost use Rattle.vfm_types.specs.Valid.{IsValid};
ghost use Rattle.vfm_record.specs.declared.record.Rec.{Rec};
ghost use Rattle.vfm_base.specs.Words.{IsBytes};
ghost use Rattle.vfm_record.specs.Record.{Record, record_bytes, record_size, Fits, IsRecordOf, IsRecord, record_of, IsWhole};
ghost use Rattle.vfm_record.specs.Tests.{record_fault, record_at};
ghost use Rattle.vfm_record.specs.Writing.{IsWritable, LendsBytes};

/// No two records have one encoding.
pub fn one_encoding()
    ensures { (r s : Record) → Fits r → Fits s → record_bytes r ≡ record_bytes s → r ≡ s }
{}

/// Reading what a record of the stream is written as gives the record.
pub fn written_is_read()
    ensures passes { (D : Desc) (stream : ℕ) (r : Record) → IsRecordOf D stream r → record_fault D stream (record_bytes r) ≡ None }
    ensures same { (D : Desc) (stream : ℕ) (r : Record) → IsRecordOf D stream r → record_at stream (record_bytes r) ≡ r }
{}

/// Writing what was read gives the bytes, and what was read is a record of the stream.
pub fn read_is_written()
    ensures record_of_stream { (D : Desc) (stream : ℕ) (bytes : List ℕ) → IsBytes bytes → record_fault D stream bytes ≡ None
        → IsRecordOf D stream (record_at stream bytes) }
    ensures same { (D : Desc) (stream : ℕ) (bytes : List ℕ) → IsBytes bytes → record_fault D stream bytes ≡ None
        → record_bytes (record_at stream bytes) ≡ bytes }
{}

/// How long a record is: never empty, and never longer than a payload may be.
pub fn size_of_a_record()
    ensures size { (r : Record) → length (record_bytes r) ≡ record_size r }
    ensures payload { (D : Desc) (stream : ℕ) (r : Record) → IsValid D → IsRecordOf D stream r
        → (1 ≤ length (record_bytes r)) × (length (record_bytes r) ≤ 65536) }
{}

/// What can be written is exactly what some stream of some machine can have. So what was read can be written.
pub fn what_can_be_written()
    ensures exact { (r : Rec) → LendsBytes r → IsWritable r ↔ (IsWhole r × IsRecord (record_of r)) }
    ensures read { (D : Desc) (stream : ℕ) (r : Rec) → IsValid D → stream ≤ device_count D
        → IsRecordOf D stream (record_of r) → IsWhole r → IsWritable r }
{}
