//! What is sent for legal lists, and the verdict on it: laws that join what was copied and read last to the
//! streams that carry it. Each is a function without a body whose contract states it.
#![tactic(auto)]

mod sent;
mod sizes;
mod verdict;

pub use sent::{
    sent_records_fit, sent_records_load_joint_machine, sent_stays_after_last_pass, share_goes_on,
};
pub use sizes::{channels_stay_below_limit, indexes_fit_their_field};
pub use verdict::{
    brought_packets_give_joint_machine, ended_share_is_sound_channel,
    ended_shares_give_joint_machine,
};
