//! A machine of the size that programs are run on: two devices with 64 blocks each, and 64 pages of 4,096 bytes.

ghost use Rattle.std.specs.Prelude.{◌≡◌, ◌∷◌, [], Some, None, true, reverse, take, drop, get_or};
ghost use Rattle.vfm_types.specs.Machine.{device_of};
ghost use Rattle.vfm_types.specs.Requests.{plain};
ghost use Rattle.vfm_types.specs.Deliveries.{machine_of, delivers};
ghost use Rattle.vfm_types.specs.Serial.{serial};
ghost use Rattle.vfm_types.specs.Marks.{is_in_set, set_size};
ghost use Rattle.vfm_base.specs.PageSet.{numbers_where};
ghost use Rattle.vfm_plain.specs.Legal.{broken};
ghost use Rattle.vfm_plain.specs.Ended.{has_ended, is_last_ended};
ghost use Rattle.vfm_cases.specs.Pair.{pair, pair_source, pair_joined};

/// The whole move is legal and comes to its end.
pub fn pair_is_moved()
    ensures joined { broken pair pair_joined ≡ None }
    ensures last { is_last_ended pair (reverse pair_source) ≡ true }
    ensures ended { has_ended pair (reverse pair_joined) ≡ true }
{}

/// The second pass is over the page that the doorbell's request wrote, and the last one over nothing.
pub fn pair_copies_what_was_written()
    ensures second { numbers_where (λ p. is_in_set pair p (reverse (take 208 pair_source))) 0 64 ≡ 2 ∷ [] }
    ensures last { set_size pair (reverse pair_source) ≡ 0 }
{}

/// Where it ends, and that the machine that does the least request first ends there too.
pub fn pair_ends_as_asked()
    ensures bar { take 4 (drop 64 (device_of (machine_of pair (reverse pair_joined)) 1).bar) ≡ 161 ∷ 162 ∷ 163 ∷ 164 ∷ [] }
    ensures page { take 8 (get_or (machine_of pair (reverse pair_joined)).pages 2 []) ≡ 5 ∷ 0 ∷ 0 ∷ 0 ∷ 0 ∷ 0 ∷ 0 ∷ 0 ∷ [] }
    ensures nic { (device_of (machine_of pair (reverse pair_joined)) 0).done ≡ 2 }
    ensures gpu { (device_of (machine_of pair (reverse pair_joined)) 1).done ≡ 1 }
    ensures serial { serial pair ≡ machine_of pair (reverse pair_joined) }
{}
