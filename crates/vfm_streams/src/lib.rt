//! What a move sends and what a destination makes of it, as definitions: the packets of a list of entries
//! and the channel of each, whole streams, the machine that their records load, and the verdict on all
//! channels. They stand below the source, the reorder buffer and the loader, which are proved against them.
//! The laws that need no legal list are the functions of `lanes.rt`; those of legal lists stand in
//! `vfm_stream_laws`, and worked moves in `vfm_stream_cases`.
#![tactic(auto)]

mod lanes;

pub use lanes::{
    channels_bring_all_that_is_sent, packets_once_each_bring_all_that_is_sent,
    what_is_sent_is_numbered,
};
