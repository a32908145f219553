//! Journals, states and reports as they are printed.

ghost use Rattle.std.specs.Prelude.{◌≡◌, ◌++◌, ◌∷◌, [], Some, None, codes, reverse, take};
ghost use Rattle.vfm_types.specs.declared.entry.Entry.TheVariants.{Hold, Arc, Fail, Report, Pass, Copy, Block, Dry, Issue, Joint};
ghost use Rattle.vfm_types.specs.declared.state.MigState.TheVariants.{Error, Resuming, StopCopy, RunningP2p, PreCopy, PreCopyP2p};
ghost use Rattle.vfm_types.specs.Deliveries.{machine_of};
ghost use Rattle.vfm_types.specs.Machine.{device_of};
ghost use Rattle.vfm_plain.specs.EntryText.{journal_text};
ghost use Rattle.vfm_plain.specs.StateText.{state_text, state_digest, pending_line};
ghost use Rattle.vfm_plain.specs.Report.{report_text};
ghost use Rattle.vfm_cases.specs.One.{one};
ghost use Rattle.vfm_cases.specs.Bells.{bell, bell_joint};
ghost use Rattle.vfm_cases.specs.Printed.{lines, one_end, one_state_lines, one_moved, one_report_lines, one_failed, one_failed_lines};

/// The whole report of one device with one write: where it was moved, and where its first arc failed.
pub fn reports_are_printed()
    ensures moved { report_text (codes "status moved" ++ 10 ∷ []) (Some one_moved) ≡ lines one_report_lines }
    ensures failed { report_text (codes "status arc-failed 0 STOP" ++ 10 ∷ []) (Some one_failed) ≡ lines one_failed_lines }
    ensures bare { report_text (codes "status no-memory" ++ 10 ∷ []) None ≡ codes "status no-memory" ++ 10 ∷ [] }
{}

/// A state; a device with a pending request.
pub fn states_are_printed()
    ensures state { state_text one one_end ≡ lines one_state_lines }
    ensures pending { state_text bell (machine_of bell (reverse bell_joint))
        ≡ lines (codes "page 0 00000000000000000000000000000000" ∷ codes "device 0 a accepted 1 done 1 lost 0"
        ∷ codes "buf 0 00000000000000000000000000000000000000000000000000000000000000000000000000000000000000000000000000000000000000000000000000000000"
        ∷ codes "bar 0 00000000000000000000000000000000000000000000000000000000000000000000000000000000000000000000000000000000000000000000000000000000"
        ∷ codes "device 1 b accepted 1 done 0 lost 0"
        ∷ codes "buf 1 00000000000000000000000000000000000000000000000000000000000000000000000000000000000000000000000000000000000000000000000000000000"
        ∷ codes "bar 1 00000000000000000000000000000000000000000000000000000000000000000000000000000000000000000000000000000000000000000000000000000000"
        ∷ codes "pend 1 0 1" ∷ []) }
    ensures numbers { pending_line 7 (4294967295, 10) ≡ codes "pend 7 4294967295 10" ++ 10 ∷ [] }
{}

/// A line of every kind of entry that the reports above lack, with states by their names.
pub fn entries_are_printed()
    ensures lines { journal_text
        (Report 1 ∷ Dry 7 ∷ Issue 2 4294967295 ∷ Hold 3 PreCopyP2p ∷ Arc 4 PreCopy ∷ Fail 5 RunningP2p ∷ Hold 0 Resuming
        ∷ Hold 0 Error ∷ Block 7 1023 ∷ Pass 10 ∷ Copy 100 ∷ [])
        ≡ lines (codes "report 1" ∷ codes "dry 7" ∷ codes "issue 2 4294967295" ∷ codes "hold 3 PRE_COPY_P2P"
        ∷ codes "arc 4 PRE_COPY" ∷ codes "fail 5 RUNNING_P2P" ∷ codes "hold 0 RESUMING" ∷ codes "hold 0 ERROR"
        ∷ codes "block 7 1023" ∷ codes "pass 10" ∷ codes "copy 100" ∷ []) }
{}

/// The digest of the state of one device after its write, as other programs for SHA-256 give it.
pub fn state_has_its_digest()
    ensures { state_digest one one_end
        ≡ 57 ∷ 46 ∷ 170 ∷ 141 ∷ 38 ∷ 111 ∷ 199 ∷ 202 ∷ 222 ∷ 200 ∷ 180 ∷ 160 ∷ 14 ∷ 100 ∷ 139 ∷ 223 ∷ 202 ∷ 245 ∷ 178 ∷ 234 ∷ 34 ∷ 199 ∷ 199 ∷ 216 ∷ 242 ∷ 12 ∷ 36 ∷ 175 ∷ 30 ∷ 186 ∷ 29 ∷ 198 ∷ [] }
{}
