//! Why each condition that cleanness rests on stands: for each a short run that would be unclean, and that breaks
//! nothing but this condition.

ghost use Rattle.std.specs.Prelude.{◌≡◌, [], ◌∷◌, Some, IsFalse};
ghost use Rattle.vfm_types.specs.declared.entry.Rule.TheVariants.{Barred, Quiet};
ghost use Rattle.vfm_types.specs.Valid.{IsValid};
ghost use Rattle.vfm_plain.specs.Legal.{broken};
ghost use Rattle.vfm_laws.specs.Faults.{faults_of, is_clean_run};
ghost use Rattle.vfm_laws.specs.Runs.{lone, peers, enters_with_barred, stops_beside_running, starts_beside_stopped, stops_with_request, issues_in_p2p, issues_when_stopped};

/// The machines of these runs are valid.
pub fn machines_are_valid()
    ensures lone { IsValid lone }
    ensures peers { IsValid peers }
{}

/// A device that enters a peer-to-peer state with a barred request outstanding is refused at that arc.
pub fn barred_request_enters_p2p()
    ensures refused { broken peers enters_with_barred ≡ Some (3, Quiet) }
    ensures alone { faults_of peers enters_with_barred ≡ (3, Quiet) ∷ [] }
    ensures unclean { IsFalse (is_clean_run peers enters_with_barred) }
{}

/// A device that stops beside a running one is refused at its hold for STOP, and again at the arc.
pub fn stop_beside_running()
    ensures refused { broken peers stops_beside_running ≡ Some (3, Quiet) }
    ensures alone { faults_of peers stops_beside_running ≡ (3, Quiet) ∷ (4, Quiet) ∷ [] }
    ensures unclean { IsFalse (is_clean_run peers stops_beside_running) }
{}

/// A device that goes to RUNNING beside a stopped one is refused at that arc.
pub fn start_beside_stopped()
    ensures refused { broken peers starts_beside_stopped ≡ Some (8, Quiet) }
    ensures alone { faults_of peers starts_beside_stopped ≡ (8, Quiet) ∷ [] }
    ensures unclean { IsFalse (is_clean_run peers starts_beside_stopped) }
{}

/// A device that stops with a request outstanding is refused at that arc.
pub fn stop_with_request()
    ensures refused { broken lone stops_with_request ≡ Some (3, Quiet) }
    ensures alone { faults_of lone stops_with_request ≡ (3, Quiet) ∷ [] }
    ensures unclean { IsFalse (is_clean_run lone stops_with_request) }
{}

/// A barred request that is issued in a peer-to-peer state is refused at its issue.
pub fn issue_in_p2p()
    ensures refused { broken peers issues_in_p2p ≡ Some (3, Barred) }
    ensures alone { faults_of peers issues_in_p2p ≡ (3, Barred) ∷ [] }
    ensures unclean { IsFalse (is_clean_run peers issues_in_p2p) }
{}

/// A request that a stopped device issues is refused at its issue.
pub fn issue_when_stopped()
    ensures refused { broken lone issues_when_stopped ≡ Some (3, Barred) }
    ensures alone { faults_of lone issues_when_stopped ≡ (3, Barred) ∷ [] }
    ensures unclean { IsFalse (is_clean_run lone issues_when_stopped) }
{}
