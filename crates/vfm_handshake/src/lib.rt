//! What both ends of a move do on the control link: the source hears the destination's answer and says Go, the destination
//! answers and hears Go. The frames and the machine of both ends stand in `vfm_control`; here they go over a link.
//!
//! A call that hears asks for a whole frame at once, and again only where it got less; one that says sends all 44 bytes in
//! one call, and again only where the link took fewer. Nothing here takes memory.
#![tactic(auto)]

mod dest;
mod fault;
mod heard;
mod laws;
mod said;
mod source;

pub use dest::{answer, hear_go};
pub use fault::{GoFault, SettleFault};
pub use laws::heard_bytes_decide;
pub use source::{say_go, settle};

#[cfg(test)]
mod tests;
