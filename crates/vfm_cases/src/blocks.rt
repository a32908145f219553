//! Which blocks of BARs are to be read.

ghost use Rattle.std.specs.Prelude.{◌≡◌, [], ◌∷◌, Some, None, true, false, reverse, take};
ghost use Rattle.vfm_types.specs.Blocks.{is_unread, is_dirty, next_block, next_part, takes_part, is_no_pass_open};
ghost use Rattle.vfm_base.specs.PageSet.{numbers_where};
ghost use Rattle.vfm_cases.specs.Lone.{lone, lone_source};
ghost use Rattle.vfm_cases.specs.Bells.{bell, bell_joined};
ghost use Rattle.vfm_cases.specs.Reading.{reading, reading_early, reading_late, reading_again};

/// The one block is unread in PRE_COPY, then nothing is left to read, then and after Joint.
pub fn block_is_read_once()
    ensures unread { numbers_where (λ b. is_unread 0 b (reverse (take 2 lone_source))) 0 1 ≡ 0 ∷ [] }
    ensures clean { is_dirty lone 0 0 (reverse (take 2 lone_source)) ≡ false }
    ensures read { numbers_where (λ b. is_unread 0 b (reverse (take 5 lone_source))) 0 1 ≡ [] }
    ensures temporary { next_block lone 0 (reverse (take 5 lone_source)) ≡ None }
    ensures stopped { next_block lone 0 (reverse lone_source) ≡ None }
{}

/// The device has a part in the pass until its block is read, and in the last pass until it runs dry.
pub fn parts_end()
    ensures takes { takes_part 0 (reverse (take 4 lone_source)) ≡ true }
    ensures due { next_part lone (reverse (take 4 lone_source)) ≡ Some 0 }
    ensures read { is_no_pass_open lone (reverse (take 5 lone_source)) ≡ true }
    ensures again { next_part lone (reverse (take 12 lone_source)) ≡ Some 0 }
    ensures dry { is_no_pass_open lone (reverse lone_source) ≡ true }
{}

/// A write over two blocks makes the read ones dirty; an unread one stays unread.
pub fn write_makes_read_blocks_dirty()
    ensures early_dirty { numbers_where (λ b. is_dirty reading 0 b (reverse reading_early)) 0 2 ≡ 0 ∷ [] }
    ensures early_unread { numbers_where (λ b. is_unread 0 b (reverse reading_early)) 0 2 ≡ 1 ∷ [] }
    ensures late_dirty { numbers_where (λ b. is_dirty reading 0 b (reverse reading_late)) 0 2 ≡ 0 ∷ 1 ∷ [] }
    ensures late_unread { numbers_where (λ b. is_unread 0 b (reverse reading_late)) 0 2 ≡ [] }
    ensures again { numbers_where (λ b. is_dirty reading 0 b (reverse reading_again)) 0 2 ≡ 1 ∷ [] }
{}

/// The least unread block comes before the least dirty one. A doorbell makes no block dirty.
pub fn unread_blocks_come_first()
    ensures unread { next_block reading 0 (reverse reading_early) ≡ Some 1 }
    ensures dirty { next_block reading 0 (reverse reading_late) ≡ Some 0 }
    ensures other { next_block reading 0 (reverse reading_again) ≡ Some 1 }
    ensures bell { is_dirty bell 1 0 (reverse bell_joined) ≡ false }
{}
