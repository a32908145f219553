//! Worked moves as what is sent for them, and the verdict on changed copies of it.
#![tactic(auto)]

mod moves;
mod refusals;

pub use moves::{
    copied_page_is_sent_again, one_device_sends_six_records, pair_sends_last_bytes,
    pre_copied_device_sends_five_records, shares_of_two_channels,
};
pub use refusals::{
    changed_channels_are_refused, changed_streams_are_refused, other_order_loads,
    sealed_channels_are_refused, whole_channel_loads,
};
