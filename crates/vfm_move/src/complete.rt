//! Where links carry all that is sent, the destination confirms the machine at the joint stop. Each law is a function
//! without a body whose contract states it.

ghost use Rattle.std.specs.Prelude.{◌≡◌, ◌⊎◌, ℕ, ◌≤◌, All, IsTrue, List, length, true};
ghost use Rattle.std.specs.Option.{IsSomeAnd};
ghost use Rattle.vfm_types.specs.declared.fault.Refusal.{Refusal};
ghost use Rattle.vfm_types.specs.declared.desc.Desc.{Desc};
ghost use Rattle.vfm_types.specs.Deliveries.{joint_machine};
ghost use Rattle.vfm_types.specs.Valid.{IsValid};
ghost use Rattle.vfm_outside.specs.Links.{ToldEnds};
ghost use Rattle.vfm_plain.specs.Ended.{is_last_ended};
ghost use Rattle.vfm_plain.specs.Legal.{IsLegal};
ghost use Rattle.vfm_plain.specs.Report.{Made, source_past};
ghost use Rattle.vfm_status.specs.declared.status.Doubt.TheVariants.{NoGo, Other};
ghost use Rattle.vfm_status.specs.declared.status.Status.{Status};
ghost use Rattle.vfm_status.specs.declared.status.Status.TheVariants.{Differs, InDoubt, NoControl, Refused, Unconfirmed};
ghost use Rattle.vfm_packet.specs.Packet.{packet_bytes};
ghost use Rattle.vfm_streams.specs.Packets.{lane_packets};
ghost use Rattle.vfm_streams.specs.Sent.{sent};
ghost use Rattle.vfm_streams.specs.Verdict.{Loads};
ghost use Rattle.vfm_move.specs.Contact.{Linked, Lines, WhereTold};
ghost use Rattle.vfm_move.specs.Table.{Whole, WholeGo};
ghost use Rattle.vfm_move.specs.Carried.{BringsState, ChannelsCarry, HasAnswered, HasSaidGo, IsFront, IsReadOut, ended_due, go_bytes, staged_bytes, verdict_of};
ghost use Rattle.vfm_move.specs.Causes.{Attempt, HasCause};
ghost use Rattle.vfm_move.specs.Complete.{CarryAll, IsComplete, end_packet, packets_in, piece_in};
ghost use Rattle.vfm_move.specs.Move.{IsHalfway, Stands, came_to};
ghost use Rattle.vfm_move.specs.Undisturbed.{AreUnread, CameAsSent, IsCopied, IsReadAndAnswered, IsWhollyCarried};

/// A source that stands and whose last pass has ended has copied everything.
pub fn halfway_moves_are_copied()
    ensures { (status : Status) (made : Made) → Stands made.desc (source_past made)
        → IsTrue (is_last_ended made.desc (source_past made)) → IsHalfway status made → IsCopied made }
{}

/// Where everything was copied and sent, and the links carry all that is sent, channels that the destination reads out
/// have all ended, and bring the machine at the joint stop. Its answer then is the digest of that machine; and that is
/// what the source hears, as soon as it hears 44 bytes or the link's end.
pub fn undisturbed_machines_are_confirmed()
    ensures ended { (made : Made) (lines : Lines) → IsWhollyCarried made lines → All IsReadOut lines.dest
        → All (λ line. line.ended ≡ true) lines.dest }
    ensures verdict { (made : Made) (lines : Lines) → IsWhollyCarried made lines → All IsReadOut lines.dest
        → verdict_of made lines ≡ Loads (joint_machine made.desc (source_past made)) }
    ensures answer { (made : Made) (lines : Lines) → IsWhollyCarried made lines → HasAnswered made lines
        → lines.dest_control.sent ≡ staged_bytes made }
    ensures front { (made : Made) (lines : Lines) → IsWhollyCarried made lines → HasAnswered made lines
        → IsFront lines.source_control.received (staged_bytes made) }
    ensures heard { (made : Made) (lines : Lines) → IsWhollyCarried made lines → HasAnswered made lines
        → (44 ≤ length lines.source_control.received) ⊎ (lines.source_control.ended ≡ true)
        → lines.source_control.received ≡ staged_bytes made }
{}

/// Where the links carry all that is sent, the destination hears Go as it was said, as soon as it hears 44 bytes or the
/// link's end.
pub fn go_comes_as_it_was_said()
    ensures { (made : Made) (lines : Lines) → IsCopied made → CarryAll made.desc lines
        → HasSaidGo WholeGo made lines.source_control.sent
        → (44 ≤ length lines.dest_control.received) ⊎ (lines.dest_control.ended ≡ true)
        → lines.dest_control.received ≡ go_bytes made }
{}

/// Where everything was copied and sent, and the destination read its channels out and answered: if the links carry all
/// that is sent, the channels brought the machine at the joint stop, whatever the status.
pub fn read_channels_bring_joint()
    ensures { (made : Made) (ends : ToldEnds) → IsReadAndAnswered made ends
        → WhereTold (Linked ends) (λ lines. CarryAll made.desc lines
        → IsSomeAnd made.joint (λ m. verdict_of made lines ≡ Loads m)) }
{}

/// Each status that comes although the destination read its channels out and answered comes of links that were
/// disturbed: a refusal, another digest, no answer, or another machine.
pub fn answered_moves_are_complete()
    ensures refused { (attempt : Attempt) (made : Made) (ends : ToldEnds) (why : Refusal)
        → IsReadAndAnswered made ends
        → HasCause (Refused why) attempt (came_to (Refused why) made ends)
        → IsComplete attempt made (came_to (Refused why) made ends) }
    ensures unconfirmed { (attempt : Attempt) (made : Made) (ends : ToldEnds) (ours theirs : List ℕ)
        → IsReadAndAnswered made ends
        → HasCause (Unconfirmed ours theirs) attempt (came_to (Unconfirmed ours theirs) made ends)
        → IsComplete attempt made (came_to (Unconfirmed ours theirs) made ends) }
    ensures no_control { (attempt : Attempt) (made : Made) (ends : ToldEnds) (heard : List ℕ)
        → IsReadAndAnswered made ends
        → HasCause (NoControl heard) attempt (came_to (NoControl heard) made ends)
        → IsComplete attempt made (came_to (NoControl heard) made ends) }
    ensures differs { (attempt : Attempt) (made : Made) (ends : ToldEnds) → IsReadAndAnswered made ends
        → HasCause Differs attempt (came_to Differs made ends)
        → WhereTold (Linked ends) (λ lines. BringsState Differs made lines)
        → IsComplete attempt made (came_to Differs made ends) }
{}

/// A doubt that comes of what the destination heard, although Go was sent, comes of links that were disturbed.
pub fn doubts_of_go_are_complete()
    ensures no_go { (attempt : Attempt) (made : Made) (ends : ToldEnds) (heard : List ℕ)
        → IsValid made.desc → IsCopied made
        → WhereTold (Linked ends) (λ lines. HasSaidGo WholeGo made lines.source_control.sent)
        → HasCause (InDoubt (NoGo heard)) attempt (came_to (InDoubt (NoGo heard)) made ends)
        → IsComplete attempt made (came_to (InDoubt (NoGo heard)) made ends) }
    ensures other { (attempt : Attempt) (made : Made) (ends : ToldEnds) (ours theirs : List ℕ) → IsCopied made
        → WhereTold (Linked ends) (λ lines. HasSaidGo WholeGo made lines.source_control.sent)
        → HasCause (InDoubt (Other ours theirs)) attempt (came_to (InDoubt (Other ours theirs)) made ends)
        → IsComplete attempt made (came_to (InDoubt (Other ours theirs)) made ends) }
{}

/// A channel as it is sent is its packets, and behind them the one that ends it.
pub fn sent_channel_is_read()
    ensures packets { (made : Made) (k : ℕ) → IsValid made.desc → IsLegal made.desc (source_past made)
        → packets_in made.desc (ended_due made k) ≡ lane_packets made.desc k (sent made.desc (source_past made)) }
    ensures piece { (made : Made) (k : ℕ) → IsValid made.desc → IsLegal made.desc (source_past made)
        → piece_in made.desc (ended_due made k) ≡ packet_bytes (end_packet made.desc) }
{}

/// Links that bring everything as it was sent carry all that is sent.
pub fn links_as_sent_carry_all()
    ensures { (made : Made) (lines : Lines) → IsValid made.desc → IsLegal made.desc (source_past made)
        → ChannelsCarry Whole made lines → CameAsSent lines → CarryAll made.desc lines }
{}

/// Links from which nothing was read yet carry all that is sent: an end that reads nothing doesn't disturb them.
pub fn unread_links_carry_all()
    ensures { (D : Desc) (lines : Lines) → IsValid D → AreUnread lines → CarryAll D lines }
{}
