//! The plain machine, which does one request at a time, and what a legal run of it is.
#![tactic(auto)]

mod device;
mod laws;
mod part;
mod parts;
mod plain;
mod sheet;
mod window;

pub use device::PlainDevice;
pub use laws::{
    bells_stay_zero, doing_keeps_counts, doorbells_change_no_byte, machines_are_sound,
    serial_without_requests, sound_machines_can_lose,
};
pub use part::Part;
pub use plain::{NotEnabled, Plain};
pub use sheet::{Sheet, added_to, held_bytes, number_of, put_bytes, same_bytes};

#[cfg(test)]
mod tests;
