//! A worked move byte by byte: what a channel carries for it, in both versions of the packets.
#![tactic(auto)]

#[cfg(test)]
mod tests;
