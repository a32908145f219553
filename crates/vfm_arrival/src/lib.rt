//! What arrives of what is sent: laws of channels of which a front came, and of packets that came in any order and
//! on any channels. They stand below what a whole move means.
#![tactic(auto)]

mod laws;

pub use laws::{
    all_channels_stay_below_limit, front_of_a_channel_is_read, front_with_its_end_is_whole,
    packets_in_any_order_give_joint_machine,
};
