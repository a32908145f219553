//! A core behind cells, one for the coordinator, one for each device and one for each page, so that several threads can step
//! it at once. Each has a seat; what all seats did is one run of the core.
#![tactic(auto)]

mod cells;
mod close;
mod coordinator;
mod device;
mod group;
mod hand;
mod plant;
mod rooms;
mod seat;
mod start;
mod stepped;

pub use plant::Plant;
pub use seat::PlantSeat;
pub use stepped::{Look, Stepped, Wish};
