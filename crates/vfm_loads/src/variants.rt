//! Why the generated load is as it is: small machines that lack one of its properties each, so that two orders
//! of enabled requests come to two ends.

ghost use Rattle.std.specs.Prelude.{◌≡◌, [], ◌∷◌, slice_index, Some, None};
ghost use Rattle.vfm_types.specs.Machine.{device_of};
ghost use Rattle.vfm_types.specs.Requests.{plain};
ghost use Rattle.vfm_types.specs.Valid.{IsValid};
ghost use Rattle.vfm_loads.specs.Orders.{page_byte, buffer_byte, block_byte, forced};
ghost use Rattle.vfm_loads.specs.Variants.{adder, writer, sharers, painter, ringer};

/// These machines are valid.
pub fn variants_are_valid()
    ensures adder { IsValid adder }
    ensures writer { IsValid writer }
    ensures sharers { IsValid sharers }
    ensures painter { IsValid painter }
    ensures ringer { IsValid ringer }
{}

/// Counts are fences: the second of two can't be done first. If it could, the buffer would hold another word at
/// the end.
pub fn counts_must_be_fences()
    ensures in_order { buffer_byte adder 0 ((0, 0) ∷ (0, 1) ∷ []) ≡ Some 5 }
    ensures refused { plain adder ((0, 1) ∷ (0, 0) ∷ []) ≡ None }
    ensures otherwise { slice_index (device_of (forced adder ((0, 1) ∷ (0, 0) ∷ [])) 0).buf 0 ≡ 7 }
{}

/// Writes are no fences: two of them at one place of a page come to two ends.
pub fn writes_in_place_of_counts()
    ensures in_order { page_byte writer ((0, 0) ∷ (0, 1) ∷ []) ≡ Some 7 }
    ensures swapped { page_byte writer ((0, 1) ∷ (0, 0) ∷ []) ≡ Some 5 }
{}

/// Two devices that count in one word find another value there in the other order.
pub fn pages_shared()
    ensures in_order { buffer_byte sharers 1 ((0, 0) ∷ (1, 0) ∷ []) ≡ Some 5 }
    ensures swapped { buffer_byte sharers 1 ((1, 0) ∷ (0, 0) ∷ []) ≡ Some 0 }
{}

/// Blocks of two kinds at one place of a peer's BAR: the last one stays.
pub fn blocks_of_two_kinds()
    ensures in_order { block_byte painter 1 ((0, 0) ∷ (0, 1) ∷ []) ≡ Some 7 }
    ensures swapped { block_byte painter 1 ((0, 1) ∷ (0, 0) ∷ []) ≡ Some 5 }
{}

/// A doorbell rung for two jobs: they are done in the order in which it was rung.
pub fn bells_for_two_jobs()
    ensures in_order { buffer_byte ringer 1 ((0, 0) ∷ (0, 1) ∷ (1, 0) ∷ (1, 1) ∷ []) ≡ Some 5 }
    ensures swapped { buffer_byte ringer 1 ((0, 1) ∷ (0, 0) ∷ (1, 0) ∷ (1, 1) ∷ []) ≡ Some 7 }
{}
