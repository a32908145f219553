//! Runs that break a rule where the move begins, comes to its joint stop, is given up or taken over.

ghost use Rattle.std.specs.Prelude.{◌≡◌, ◌++◌, ◌∷◌, [], Some, None, take};
ghost use Rattle.vfm_types.specs.declared.entry.Entry.TheVariants.{Issue, Deliver, Complete, Begin, Joint, Abort, Resume};
ghost use Rattle.vfm_types.specs.declared.entry.Rule.TheVariants.{Start, Order, Joint as Standing};
ghost use Rattle.vfm_plain.specs.Legal.{broken};
ghost use Rattle.vfm_cases.specs.One.{one, one_write, one_source, one_joined, one_aborted};
ghost use Rattle.vfm_cases.specs.Lone.{lone, lone_source};
ghost use Rattle.vfm_cases.specs.Peers.{peers, peers_quiet, peers_stopped};
ghost use Rattle.vfm_cases.specs.Window.{window_two, window_full};

/// A second beginning, and one after giving up.
pub fn begin_out_of_order_is_refused()
    ensures twice { broken peers (Begin ∷ Begin ∷ []) ≡ Some (1, Order) }
    ensures aborted { broken peers (Abort ∷ Begin ∷ []) ≡ Some (1, Order) }
    ensures resumed { broken one (one_joined ++ Begin ∷ []) ≡ Some (15, Order) }
{}

/// A beginning before each device has completed what is wanted or is idle.
pub fn early_begin_is_refused()
    ensures pending { broken one (Begin ∷ []) ≡ Some (0, Start) }
    ensures outstanding { broken one (Issue 0 0 ∷ Deliver 0 0 ∷ Begin ∷ []) ≡ Some (2, Start) }
    ensures idle { broken one (one_write ++ Begin ∷ []) ≡ None }
    ensures delivered { broken (record window_two { begin = 1 }) (Issue 0 0 ∷ Deliver 0 0 ∷ Begin ∷ []) ≡ Some (2, Start) }
    ensures completed { broken (record window_two { begin = 1 }) (Issue 0 0 ∷ Deliver 0 0 ∷ Complete 0 0 ∷ Begin ∷ []) ≡ None }
{}

/// Joint before the move begins, or a second time.
pub fn joint_out_of_order_is_refused()
    ensures early { broken one (Joint ∷ []) ≡ Some (0, Order) }
    ensures twice { broken one (take 8 one_source ++ Joint ∷ []) ≡ Some (8, Order) }
    ensures aborted { broken one (take 7 one_source ++ Abort ∷ Joint ∷ []) ≡ Some (8, Order) }
{}

/// Joint before every device stands in STOP_COPY.
pub fn early_joint_is_refused()
    ensures running { broken peers (Begin ∷ Joint ∷ []) ≡ Some (1, Standing) }
    ensures stopped { broken one (take 6 one_source ++ Joint ∷ []) ≡ Some (6, Standing) }
    ensures one_of_two { broken peers (take 13 peers_stopped ++ Joint ∷ []) ≡ Some (13, Standing) }
    ensures both { broken peers (peers_stopped ++ Joint ∷ []) ≡ None }
{}

/// Giving up a second time, or after Resume.
pub fn abort_out_of_order_is_refused()
    ensures twice { broken one (one_aborted ++ Abort ∷ []) ≡ Some (15, Order) }
    ensures resumed { broken one (one_joined ++ Abort ∷ []) ≡ Some (15, Order) }
{}

/// Taking over before the move begins, after giving up, or a second time.
pub fn resume_out_of_order_is_refused()
    ensures early { broken one (Resume ∷ []) ≡ Some (0, Order) }
    ensures aborted { broken one (one_aborted ++ Resume ∷ []) ≡ Some (15, Order) }
    ensures twice { broken one (one_joined ++ Resume ∷ []) ≡ Some (15, Order) }
{}

/// Taking over before Joint, before the last pass, before it has ended, and not after an earlier pass alone.
pub fn early_resume_is_refused()
    ensures unjoint { broken one (take 7 one_source ++ Resume ∷ []) ≡ Some (7, Standing) }
    ensures passless { broken one (take 8 one_source ++ Resume ∷ []) ≡ Some (8, Standing) }
    ensures unended { broken one (take 11 one_source ++ Resume ∷ []) ≡ Some (11, Standing) }
    ensures earlier { broken lone (take 10 lone_source ++ Resume ∷ []) ≡ Some (10, Standing) }
    ensures undry { broken lone (take 12 lone_source ++ Resume ∷ []) ≡ Some (12, Standing) }
{}
