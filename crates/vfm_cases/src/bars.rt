//! A device with several BARs: where their bytes lie, which of them is a doorbell, and how they are printed.

ghost use Rattle.std.specs.Prelude.{◌≡◌, ◌++◌, ◌∷◌, [], Some, None, true, false, replicate, reverse};
ghost use Rattle.vfm_types.specs.declared.job.Job.TheVariants.{Write, Read, Store, Add};
ghost use Rattle.vfm_types.specs.declared.job.Region.TheVariants.{Bar};
ghost use Rattle.vfm_types.specs.declared.fault.DescFault.TheVariants.{Crosses, BellKind};
ghost use Rattle.vfm_types.specs.Desc.{block_count, shape_at};
ghost use Rattle.vfm_types.specs.DescFault.{form_fault};
ghost use Rattle.vfm_types.specs.Region.{region_of};
ghost use Rattle.vfm_types.specs.Job.{is_doorbell};
ghost use Rattle.vfm_types.specs.Machine.{device_of};
ghost use Rattle.vfm_types.specs.Serial.{serial};
ghost use Rattle.vfm_types.specs.Blocks.{is_dirty, next_block, writes_block};
ghost use Rattle.vfm_base.specs.PageSet.{numbers_where};
ghost use Rattle.vfm_plain.specs.Legal.{broken};
ghost use Rattle.vfm_plain.specs.StateText.{state_text};
ghost use Rattle.vfm_cases.specs.Bare.{eight};
ghost use Rattle.vfm_cases.specs.Printed.{lines};
ghost use Rattle.vfm_cases.specs.TwoBars.{aimed, two_bars, two_bars_written, two_bars_end, two_bars_lines};

/// BAR 1 begins 64 KiB after BAR 0, and its bytes come after those of BAR 0. Between two BARs there is nothing.
pub fn bars_lie_apart()
    ensures first { region_of two_bars 268435456 128 ≡ Some (record { region = Bar 0; offset = 0 }) }
    ensures beyond { region_of two_bars 268435456 129 ≡ None }
    ensures between { region_of two_bars 268435584 1 ≡ None }
    ensures before { region_of two_bars 268500991 1 ≡ None }
    ensures second { region_of two_bars 268500992 64 ≡ Some (record { region = Bar 0; offset = 128 }) }
    ensures last { region_of two_bars 268501055 1 ≡ Some (record { region = Bar 0; offset = 191 }) }
    ensures past { region_of two_bars 268500993 64 ≡ None }
    ensures third { region_of two_bars 268566528 1 ≡ None }
    ensures other { region_of two_bars 268959744 64 ≡ Some (record { region = Bar 1; offset = 0 }) }
{}

/// Eight bytes at offset 0 of BAR 0 are a doorbell; those of BAR 1 are bytes like any others.
pub fn doorbells_are_in_bar_0()
    ensures first { is_doorbell two_bars (Write 268435456 (eight 0)) ≡ true }
    ensures second { is_doorbell two_bars (Write 268500992 (eight 0)) ≡ false }
    ensures stored { is_doorbell two_bars (Store 268500992 8) ≡ false }
{}

/// A job may touch every byte of BAR 1, and the first eight of BAR 0 by ringing alone.
#[tactic(auto, unfolding(vfm_types::specs::DescFault::form_fault))]
pub fn jobs_may_touch_bar_1()
    ensures written { form_fault two_bars ≡ None }
    ensures added { form_fault (aimed (Add 268500992 1 ∷ Store 268500992 8 ∷ Write 268500992 (eight 1) ∷ [])) ≡ None }
    ensures between { form_fault (aimed (Write 268435584 (255 ∷ []) ∷ [])) ≡ Some (Crosses 1 0) }
    ensures over { form_fault (aimed (Read 268435576 8 ∷ Read 268435577 8 ∷ [])) ≡ Some (Crosses 1 1) }
    ensures bell { form_fault (aimed (Write 268435456 (255 ∷ []) ∷ [])) ≡ Some (BellKind 1 0) }
{}

/// Blocks are counted over all BARs: the first of BAR 1 is block 2 of the device, and a write there makes it dirty.
pub fn blocks_are_counted_over_all_bars()
    ensures count { block_count (shape_at two_bars 0) ≡ 3 }
    ensures written { numbers_where (λ b. writes_block two_bars 0 b (Write 268500992 (255 ∷ []))) 0 3 ≡ 2 ∷ [] }
    ensures bell { numbers_where (λ b. writes_block two_bars 0 b (Write 268435456 (eight 0))) 0 3 ≡ [] }
    ensures eight { numbers_where (λ b. writes_block two_bars 0 b (Write 268500992 (eight 0))) 0 3 ≡ 2 ∷ [] }
    ensures legal { broken two_bars two_bars_written ≡ None }
    ensures dirty { numbers_where (λ b. is_dirty two_bars 0 b (reverse two_bars_written)) 0 3 ≡ 2 ∷ [] }
    ensures next { next_block two_bars 0 (reverse two_bars_written) ≡ Some 2 }
{}

/// The byte stands after the 128 bytes of BAR 0.
pub fn byte_of_bar_1_is_written()
    ensures bytes { (device_of two_bars_end 0).bar ≡ replicate 128 0 ++ 255 ∷ replicate 63 0 }
    ensures other { (device_of two_bars_end 1).bar ≡ replicate 64 0 }
    ensures serial { serial two_bars ≡ two_bars_end }
{}

/// Each of several BARs has a line with its number; the only one has none.
pub fn bars_are_printed()
    ensures { state_text two_bars two_bars_end ≡ lines two_bars_lines }
{}
