//! A seat at work in a thread of its own.

ghost use Rattle.std.specs.Prelude.{◌≡◌, ◌<◌, ◌≤◌, ◌+◌, ◌^◌, [], length};
ghost use Rattle.vfm_turn.specs.Words.{IsTicketOf, cells_of, number_of, holds_of, records_of};

use crate::count::Count;
use std::thread::yield_now;
use vfm_turn::{Board, Busy, Ticket};
use vfm_types::{DeviceId, Entry};

/// One draw: its stamp, the cell, and the cell's count before it.
#[derive(Clone, Copy)]
pub struct Draw {
    pub stamp: u64,
    pub cell: u32,
    pub before: u64,
}

/// What all workers are to do.
#[derive(Drop)]
pub struct Plan {
    pub seats: u32,
    pub cells: u32,
    /// Whether a seat goes from cell to cell, or stays on the one of its number.
    pub does_roam: bool,
    /// How many entries each seat draws.
    pub goal: usize,
    /// The most turns that it takes for them.
    pub turns: u32,
}

/// A seat and what it drew.
#[derive(Drop)]
pub struct Worker {
    pub ticket: Ticket<Count>,
    pub drawn: Vec<Draw>,
    /// Whether each seat that it found in a cell was another one of the board.
    pub is_sound: bool,
}

// enters a cell, counts up, draws and leaves
fn draw_once(board: &Board<Count>, t: &mut Ticket<Count>, cell: u32) -> Result<Draw, Busy>
    requires ticket { IsTicketOf board.now t.old }
    requires rest { holds_of t.old ≡ [] }
    requires few { length (records_of t.old) < 2 ^ 32 }
    requires cell { cell < cells_of board.now }
    ensures ticket { IsTicketOf board.now t.new × (number_of t.new ≡ number_of t.old) }
    ensures rest { holds_of t.new ≡ [] }
    ensures few { length (records_of t.new) ≤ length (records_of t.old) + 1 }
{
    let Count(before) = board.enter(t, cell)?;
    let after = Count(before.wrapping_add(1));
    board.show(t, cell, &after);
    let cells = [cell];
    let stamp = board.draw(t, Entry::Report { d: DeviceId(0) }, &cells);
    board.leave(t, cell, after);
    Ok(Draw {
        stamp,
        cell,
        before,
    })
}

impl Worker {
    // the cell of a turn
    fn cell_at(&self, plan: &Plan, turn: u32) -> u32
        requires { 0 < plan.now.cells }
        ensures { result < plan.now.cells }
    {
        let cells = plan.cells;
        let place = if plan.does_roam { turn } else { 0 };
        ((u64::from(place) + u64::from(self.ticket.number())) % u64::from(cells)) as u32
    }

    /// Draws until it has drawn `goal` entries, on the cell of its own number or, where it roams, on each in turn; but
    /// no longer than so many turns.
    pub fn work(&mut self, board: &Board<Count>, plan: &Plan)
        requires ticket { IsTicketOf board.now self.old.ticket }
        requires rest { holds_of self.old.ticket ≡ [] }
        requires cells { (0 < plan.now.cells) × (plan.now.cells ≤ cells_of board.now) }
        requires few { length (records_of self.old.ticket) + plan.now.turns ≤ 2 ^ 32 }
        ensures ticket { IsTicketOf board.now self.new.ticket × (number_of self.new.ticket ≡ number_of self.old.ticket) }
        ensures rest { holds_of self.new.ticket ≡ [] }
        ensures few { length (records_of self.new.ticket) ≤ length (records_of self.old.ticket) + plan.now.turns }
    {
        for turn in 0..plan.turns {
            if self.drawn.len() >= plan.goal || self.drawn.len() >= self.drawn.capacity() {
                return;
            }
            let cell = self.cell_at(plan, turn);
            match draw_once(board, &mut self.ticket, cell) {
                Ok(draw) => self.drawn.push_reserved(draw),
                Err(busy) => {
                    if busy.holder >= plan.seats || busy.holder == self.ticket.number() {
                        self.is_sound = false;
                    }
                    yield_now();
                }
            }
        }
    }
}
