//! Worked cases by computation: the bytes of frames, and pairs event by event, written from the format and the machine
//! by hand.

ghost use Rattle.std.specs.Prelude.{◌≡◌, Some, None, [], ◌∷◌, IsFalse};
ghost use Rattle.vfm_control.specs.declared.frame.Frame.TheVariants as frames;
ghost use Rattle.vfm_control.specs.declared.ends.SourceEnd.TheVariants as source;
ghost use Rattle.vfm_control.specs.declared.ends.DestEnd.TheVariants as dest;
ghost use Rattle.vfm_control.specs.declared.ends.PairEvent.TheVariants.{Stage, Refuse, DeliverAnswer, DeliverGo, SendGo, GiveUp, StopSource, StopDest};
ghost use Rattle.vfm_control.specs.Frame.{frame_bytes};
ghost use Rattle.vfm_control.specs.Pair.{can_happen, pair_after};
ghost use Rattle.vfm_control.specs.Worked.{x, y, missing};

#[tactic(auto, unfolding(crate::specs::Frame::frame_bytes))]
fn bytes_of_worked_frames()
    // a refusal with code 24 and two zeros, in session 7
    ensures refused { frame_bytes (frames.Refused 7 missing)
        ≡ 0x56 ∷ 0x46 ∷ 0x4d ∷ 0x52 ∷ 0 ∷ 0 ∷ 0 ∷ 0 ∷ 0 ∷ 0 ∷ 0 ∷ 7 ∷ 0 ∷ 0 ∷ 0 ∷ 24
        ∷ 0 ∷ 0 ∷ 0 ∷ 0 ∷ 0 ∷ 0 ∷ 0 ∷ 0 ∷ 0 ∷ 0 ∷ 0 ∷ 0 ∷ 0 ∷ 0 ∷ 0 ∷ 0
        ∷ 0 ∷ 0 ∷ 0 ∷ 0 ∷ 0 ∷ 0 ∷ 0 ∷ 0 ∷ 0 ∷ 0 ∷ 0 ∷ 0 ∷ [] }
    ensures staged { frame_bytes (frames.Staged 7 (5 ∷ 6 ∷ []))
        ≡ 0x56 ∷ 0x46 ∷ 0x4d ∷ 0x53 ∷ 0 ∷ 0 ∷ 0 ∷ 0 ∷ 0 ∷ 0 ∷ 0 ∷ 7 ∷ 5 ∷ 6 ∷ [] }
    ensures go { frame_bytes (frames.Go 258 (5 ∷ 6 ∷ []))
        ≡ 0x56 ∷ 0x46 ∷ 0x4d ∷ 0x47 ∷ 0 ∷ 0 ∷ 0 ∷ 0 ∷ 0 ∷ 0 ∷ 1 ∷ 2 ∷ 5 ∷ 6 ∷ [] }
{}

#[tactic(auto, unfolding(crate::specs::Pair::pair_after))]
fn pairs_that_go_on()
    // the newest event stands first
    ensures heard { (pair_after x (DeliverAnswer ∷ Stage x ∷ [])).source ≡ source.Heard x }
    ensures runs { (pair_after x (DeliverGo ∷ SendGo ∷ DeliverAnswer ∷ Stage x ∷ [])).dest ≡ dest.Running x }
    ensures runs_still { (pair_after x (DeliverGo ∷ DeliverGo ∷ SendGo ∷ DeliverAnswer ∷ Stage x ∷ [])).dest
        ≡ dest.Running x }
    // a late and doubled answer, and Go after the source has gone
    ensures late { (pair_after x
        (DeliverGo ∷ StopSource ∷ DeliverAnswer ∷ SendGo ∷ DeliverAnswer ∷ Stage x ∷ [])).dest ≡ dest.Running x }
    // an answer that arrives after the destination has gone, and a Go that finds nobody
    ensures gone { (pair_after x (DeliverGo ∷ SendGo ∷ DeliverAnswer ∷ StopDest ∷ Stage x ∷ [])).dest
        ≡ dest.Stopped }
{}

#[tactic(auto, unfolding(crate::specs::Pair::pair_after))]
fn pairs_that_give_up()
    ensures other_digest { (pair_after x (DeliverAnswer ∷ Stage y ∷ [])).source ≡ source.Offered x }
    ensures resumes { (pair_after x (GiveUp ∷ DeliverAnswer ∷ Stage y ∷ [])).source ≡ source.Resumed }
    ensures resumes_heard { (pair_after x (GiveUp ∷ DeliverAnswer ∷ Stage x ∷ [])).source ≡ source.Resumed }
    ensures no_go_then { IsFalse (can_happen (pair_after x (GiveUp ∷ DeliverAnswer ∷ Stage x ∷ [])) SendGo) }
    ensures refused { (pair_after x (DeliverAnswer ∷ Refuse missing ∷ [])).source ≡ source.Offered x }
    // an answer that is lost, and one that comes too late
    ensures lost { (pair_after x (GiveUp ∷ Stage x ∷ [])).source ≡ source.Resumed }
    ensures too_late { (pair_after x (DeliverAnswer ∷ GiveUp ∷ Stage x ∷ [])).source ≡ source.Resumed }
{}

#[tactic(auto, unfolding(crate::specs::Pair::pair_after))]
fn events_that_cannot_happen()
    ensures go_unheard { IsFalse (can_happen (pair_after x ([])) SendGo) }
    ensures go_unconfirmed { IsFalse (can_happen (pair_after x (DeliverAnswer ∷ Stage y ∷ [])) SendGo) }
    ensures go_twice { IsFalse (can_happen (pair_after x (SendGo ∷ DeliverAnswer ∷ Stage x ∷ [])) SendGo) }
    ensures give_up_after_go { IsFalse
        (can_happen (pair_after x (SendGo ∷ DeliverAnswer ∷ Stage x ∷ [])) GiveUp) }
    ensures give_up_twice { IsFalse (can_happen (pair_after x (GiveUp ∷ [])) GiveUp) }
    ensures no_answer { IsFalse (can_happen (pair_after x ([])) DeliverAnswer) }
    ensures no_go { IsFalse (can_happen (pair_after x (DeliverAnswer ∷ Stage x ∷ [])) DeliverGo) }
    ensures answer_twice { IsFalse (can_happen (pair_after x (Stage x ∷ [])) (Stage x)) }
    ensures refuse_staged { IsFalse (can_happen (pair_after x (Stage x ∷ [])) (Refuse missing)) }
{}

#[test]
fn worked_cases() {
    bytes_of_worked_frames();
    pairs_that_go_on();
    pairs_that_give_up();
    events_that_cannot_happen();
}
