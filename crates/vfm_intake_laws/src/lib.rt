//! What joins loaders and reorder buffers to the verdict: laws of packets that come in any order, each channel's in its own.
//! Each is a function without a body whose contract states it.
#![tactic(auto)]

mod doubles;
mod order;
mod prefixes;

pub use doubles::{doubled_index_is_the_gap, told_index_stays_the_least};
pub use order::{
    order_of_arrival_changes_no_fault, order_of_arrival_changes_no_refusal,
    same_packets_come_in_any_order, whole_stream_is_one_in_any_order,
};
pub use prefixes::{first_packets_go_on, first_packets_stay, whole_stream_is_its_first_packets};
