//! Runs that break a rule at a report, a pass, a page or a block.

ghost use Rattle.std.specs.Prelude.{◌≡◌, ◌++◌, ◌∷◌, [], Some, None, take};
ghost use Rattle.vfm_types.specs.declared.entry.Entry.TheVariants.{Arc, Report, Pass, Copy, Block, Dry, Begin, Joint, Abort};
ghost use Rattle.vfm_types.specs.declared.entry.Rule.TheVariants.{Pages, Blocks, Decide, Order};
ghost use Rattle.vfm_types.specs.declared.state.MigState.TheVariants.{PreCopy};
ghost use Rattle.vfm_plain.specs.Legal.{broken};
ghost use Rattle.vfm_cases.specs.One.{one, one_write, one_source, one_early};
ghost use Rattle.vfm_cases.specs.Lone.{lone, lone_source};
ghost use Rattle.vfm_cases.specs.Peers.{peers, peers_stopped, peers_source};
ghost use Rattle.vfm_cases.specs.Rounds.{rounds_two, rounds_second};
ghost use Rattle.vfm_cases.specs.Early.{early, early_first, early_ended, early_decided};

/// A report while the move isn't on.
pub fn report_out_of_order_is_refused()
    ensures early { broken early (Report 0 ∷ []) ≡ Some (0, Order) }
    ensures aborted { broken early (early_ended ++ Abort ∷ Report 0 ∷ []) ≡ Some (8, Order) }
{}

/// A report before a pass has begun or ended, a second one, one once it is decided that the devices stop, and one after
/// the last pass.
pub fn wrong_report_is_refused()
    ensures unbegun { broken early (Begin ∷ Report 0 ∷ []) ≡ Some (1, Pages) }
    ensures unended { broken early (early_first ++ Report 0 ∷ []) ≡ Some (4, Pages) }
    ensures twice { broken early (early_ended ++ Report 0 ∷ Report 0 ∷ []) ≡ Some (8, Pages) }
    ensures decided { broken early (early_decided ++ Report 0 ∷ []) ≡ Some (12, Pages) }
    ensures last { broken one (one_source ++ Report 0 ∷ []) ≡ Some (12, Pages) }
{}

/// A pass while the move isn't on.
pub fn pass_out_of_order_is_refused()
    ensures early { broken early (Pass 1 ∷ []) ≡ Some (0, Order) }
    ensures aborted { broken early (early_ended ++ Abort ∷ Pass 2 ∷ []) ≡ Some (8, Order) }
{}

/// A pass of a wrong number, before the one before has ended, or before each device has reported.
pub fn wrong_pass_is_refused()
    ensures zero { broken early (Begin ∷ Arc 0 PreCopy ∷ Arc 1 PreCopy ∷ Pass 0 ∷ []) ≡ Some (3, Pages) }
    ensures second { broken early (Begin ∷ Arc 0 PreCopy ∷ Arc 1 PreCopy ∷ Pass 2 ∷ []) ≡ Some (3, Pages) }
    ensures again { broken early (early_first ++ Pass 1 ∷ []) ≡ Some (4, Pages) }
    ensures unended { broken early (early_first ++ Copy 0 ∷ Block 0 0 ∷ Pass 2 ∷ []) ≡ Some (6, Pages) }
    ensures unreported { broken early (early_ended ++ Report 0 ∷ Pass 2 ∷ []) ≡ Some (8, Pages) }
{}

/// A pass where none is wanted: where the devices are to stop at once, and before each device that has PRE_COPY is in it.
/// Once a pass has decided that the devices stop, a further one lacks its reports, which the rule of pages says first.
pub fn unwanted_pass_is_refused()
    ensures rounds { broken one (one_write ++ Begin ∷ Pass 1 ∷ []) ≡ Some (4, Decide) }
    ensures running { broken early (Begin ∷ Arc 1 PreCopy ∷ Pass 1 ∷ []) ≡ Some (2, Decide) }
    ensures decided { broken early (early_decided ++ Pass 3 ∷ []) ≡ Some (12, Pages) }
    ensures few { broken (record early { threshold = 1 }) (early_ended ++ Pass 2 ∷ []) ≡ Some (7, Pages) }
{}

/// A copy while the move isn't on, before any pass, of a page that isn't the least one left, and of one that was copied.
pub fn wrong_copy_is_refused()
    ensures early { broken one (Copy 0 ∷ []) ≡ Some (0, Order) }
    ensures aborted { broken early (early_first ++ Abort ∷ Copy 0 ∷ []) ≡ Some (5, Order) }
    ensures unbegun { broken early (Begin ∷ Copy 0 ∷ []) ≡ Some (1, Pages) }
    ensures later { broken (one_early 1) (Begin ∷ Pass 1 ∷ Copy 1 ∷ []) ≡ Some (2, Pages) }
    ensures twice { broken (one_early 1) (Begin ∷ Pass 1 ∷ Copy 0 ∷ Copy 0 ∷ []) ≡ Some (3, Pages) }
{}

/// A later pass is over the pages that were written alone, the last one too.
pub fn copy_out_of_the_set_is_refused()
    ensures outside { broken early (early_ended ++ Report 0 ∷ Report 1 ∷ Pass 2 ∷ Copy 0 ∷ []) ≡ Some (10, Pages) }
    ensures inside { broken rounds_two (rounds_second ++ Copy 0 ∷ []) ≡ None }
    ensures last { broken lone (take 12 lone_source ++ Copy 0 ∷ []) ≡ Some (12, Pages) }
{}

/// A block while the move isn't on, before any pass, or before the pages of the pass are copied.
pub fn early_block_is_refused()
    ensures early { broken one (Block 0 0 ∷ []) ≡ Some (0, Order) }
    ensures aborted { broken early (early_first ++ Abort ∷ Block 0 0 ∷ []) ≡ Some (5, Order) }
    ensures unbegun { broken early (Begin ∷ Block 0 0 ∷ []) ≡ Some (1, Blocks) }
    ensures uncopied { broken early (early_first ++ Block 0 0 ∷ []) ≡ Some (4, Blocks) }
{}

/// A block of a device that isn't the least one due or that has no part, not the least unread one, or none that is unread
/// or dirty.
pub fn wrong_block_is_refused()
    ensures device { broken early (early_first ++ Copy 0 ∷ Block 1 0 ∷ []) ≡ Some (5, Blocks) }
    ensures over { broken early (early_first ++ Copy 0 ∷ Block 0 0 ∷ Block 0 0 ∷ []) ≡ Some (6, Blocks) }
    ensures later { broken peers (peers_stopped ++ Joint ∷ Pass 1 ∷ Copy 0 ∷ Block 0 1 ∷ []) ≡ Some (17, Blocks) }
    ensures partless { broken (one_early 1) (Begin ∷ Pass 1 ∷ Copy 0 ∷ Copy 1 ∷ Block 0 0 ∷ []) ≡ Some (4, Blocks) }
    ensures clean { broken early (early_ended ++ Report 0 ∷ Report 1 ∷ Pass 2 ∷ Block 0 0 ∷ []) ≡ Some (10, Blocks) }
{}

/// Dry while the move isn't on, before any pass or before its pages are copied, of a device that has a block to read,
/// that isn't the least one due, or whose part has ended.
pub fn wrong_dry_is_refused()
    ensures early { broken one (Dry 0 ∷ []) ≡ Some (0, Order) }
    ensures unbegun { broken early (Begin ∷ Dry 0 ∷ []) ≡ Some (1, Blocks) }
    ensures unread { broken early (early_first ++ Copy 0 ∷ Dry 0 ∷ []) ≡ Some (5, Blocks) }
    ensures device { broken early (early_ended ++ Report 0 ∷ Report 1 ∷ Pass 2 ∷ Dry 1 ∷ []) ≡ Some (10, Blocks) }
    ensures twice { broken early (early_decided ++ Dry 1 ∷ []) ≡ Some (12, Blocks) }
{}
