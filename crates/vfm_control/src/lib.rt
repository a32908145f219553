//! The handshake of both ends of a move: the frames that they exchange over the control link, and the machine of both.
//!
//! A destination that has staged a whole state says so with its digest, the source compares it with its own and says Go,
//! and only then may the destination run. `specs/` has the format (`Words`, `Frame`) and the machine (`Pair`: what each
//! event needs and does, whatever is lost, doubled or late; `Calls`: what the calls of the real ends are in it). The laws
//! are functions without a body: those of the frames in `frame_laws.rt`, those over every list of events in
//! `pair_laws.rt`, and the steps that the real ends make in `call_laws.rt`. Nothing here takes memory.
#![tactic(auto)]

mod call_laws;
mod codec;
mod ends;
mod frame;
mod frame_laws;
mod pair;
mod pair_laws;

pub use call_laws::{
    answer_is_stage_or_refuse, finish_is_deliver_go, give_up_is_give_up, go_is_send_go,
    sent_frame_is_read, settle_is_deliver_answer,
};
pub use codec::{decode, encode};
pub use ends::{Answer, DestEnd, NotNow, PairEvent, SourceEnd};
pub use frame::{FRAME_LEN, Frame};
pub use frame_laws::{encoded_frame_is_decoded, only_frames_are_decoded};
pub use pair::Pair;
pub use pair_laws::{
    doubled_frames_do_nothing, ends_keep_their_digests, go_is_final, go_was_confirmed,
    never_both_run, one_more_event, running_was_confirmed, sent_frames_stay,
    undisturbed_pair_moves,
};

#[cfg(test)]
mod tests;
#[cfg(test)]
mod worked;
