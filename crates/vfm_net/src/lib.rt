//! Links between the two ends over TCP, from one socket of this machine to another.
#![tactic(auto)]

mod meeting;
mod tcp_link;
mod tcp_wires;

pub use tcp_link::TcpLink;
pub use tcp_wires::TcpWires;

#[cfg(test)]
mod tests;
