//! The board of cells: which seat holds which cell, and one order of all entries that the seats draw.
//!
//! A board has 1 to 1,100 cells, each with a value, and 1 to 64 seats, each with a ticket. Threads share the board and
//! keep a ticket each. A seat enters a cell and is lent its value; while it holds the cell nobody else has it. Holding
//! every cell that an entry touches, it draws the entry's stamp, 0, 1, 2 and so on over all seats, and leaves the cells
//! again. No call waits, and none but `Board::start` takes memory.
#![tactic(auto)]

mod board;
mod close;
mod kept;
mod laws;
mod plays;
mod seen;
mod start;
#[cfg(test)]
mod tests;
mod ticket;

pub use board::Board;
pub use kept::Kept;
pub use laws::{Local, one_run, one_run_to_each_note};
pub use seen::{Busy, Drawn, Key, Note, Past, Stand, Touch, View};
pub use ticket::Ticket;
