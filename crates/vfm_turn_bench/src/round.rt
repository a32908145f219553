//! One round of all seats on one board, each in a thread of its own.

ghost use Rattle.std.specs.Prelude.{◌≡◌, ◌<◌, ◌≤◌, ◌+◌, ◌^◌, ℕ, true, [], map, length, slice_index_or, All, IfOk};
ghost use Rattle.vfm_turn.specs.Order.{has};
ghost use Rattle.vfm_turn.specs.Words.{IsTicketOf, cells_of, seats_of, number_of, holds_of, records_of};
ghost use Rattle.vfm_turn_bench.specs.declared.worker.Worker.{Worker};
ghost use Rattle.vfm_turn_bench.specs.Workers.{IsAtRest, IsNew, IsWorked, numbers_of};

use crate::chain::is_one_order;
use crate::count::Count;
use crate::worker::{Draw, Plan, Worker};
use anyhow::{Result, bail};
use std::alloc::Global;
use std::thread::{Threads, for_each_mut};
use vfm_turn::{Board, Ticket};
use vfm_types::{Desc, Shapes};

/// The most seats of a round.
pub const MOST_SEATS: u32 = 8;

// how many turns a seat takes at most beside the others, and then alone
const MOST_TURNS: u32 = 1_000_000_000;

/// A round: seats, 1 to 8, cells, 1 to 12, and how many entries the seats draw in all.
#[derive(Drop)]
pub struct Round {
    pub seats: u32,
    pub cells: u32,
    pub draws: u32,
    /// Whether a seat goes from cell to cell.
    pub does_roam: bool,
    ghost few_seats: { (0 < seats) × (seats ≤ 8) },
    ghost few_cells: { (0 < cells) × (cells ≤ 12) },
}

// a description of no device: what the board is over makes no difference here
fn description(alloc: Global) -> Desc {
    Desc {
        session: 1,
        page: 16,
        pages: 1,
        channels: 1,
        version: 1,
        begin: 0,
        rounds: 0,
        threshold: 0,
        devices: Shapes::of(Vec::new(alloc)),
    }
}

// so many cells that nobody has drawn on
fn zeros(alloc: Global, cells: u32) -> Result<Vec<Count>>
    ensures { IfOk result (λ v. length v.items ≡ cells) }
{
    let mut list = Vec::new(alloc);
    for _cell in 0..cells {
        list.push(Count(0))?;
    }
    Ok(list)
}

// a worker for each ticket, with room for so many draws
fn hire(
    alloc: Global,
    board: &Board<Count>,
    mut tickets: Vec<Ticket<Count>>,
    goal: usize,
) -> Result<Vec<Worker>>
    requires tickets { All (λ t. IsNew board.now t) tickets.items }
    requires all { (k : ℕ) → k < seats_of board.now → has k (map number_of tickets.items) ≡ true }
    ensures workers { IfOk result (λ v. All (λ w. IsNew board.now w.ticket) v.items) }
    ensures all { IfOk result (λ v. (k : ℕ) → k < seats_of board.now → has k (numbers_of v.items) ≡ true) }
{
    let mut workers = Vec::new(alloc);
    while let Some(ticket) = tickets.pop() {
        workers.push(Worker {
            ticket,
            drawn: Vec::with_capacity(alloc, goal)?,
            is_sound: true,
        })?;
    }
    Ok(workers)
}

// all workers beside one another
fn work_all<R: Threads + Sync>(rt: &R, board: &Board<Count>, workers: &mut [Worker], plan: &Plan)
    requires cells { (0 < plan.now.cells) × (plan.now.cells ≤ cells_of board.now) }
    requires workers { All (λ w. IsNew board.now w.ticket) workers.old }
    requires turns { plan.now.turns ≤ 2 ^ 31 }
    ensures { (i : ℕ) (d : Worker) → i < length workers.old → IsWorked board.now (slice_index_or workers.old i d) (slice_index_or workers.new i d) }
{
    for_each_mut(
        rt,
        workers,
        MOST_SEATS as usize,
        &|_, worker: &mut Worker| worker.work(board, plan),
    );
}

// what the workers are left with: their tickets, what each drew, and whether all were sound
fn dismiss(
    alloc: Global,
    board: &Board<Count>,
    mut workers: Vec<Worker>,
) -> Result<(Vec<Ticket<Count>>, Vec<Vec<Draw>>, bool)>
    requires workers { All (λ w. IsAtRest board.now w.ticket) workers.items }
    requires all { (k : ℕ) → k < seats_of board.now → has k (numbers_of workers.items) ≡ true }
    ensures tickets { IfOk result (λ r. All (λ t. IsAtRest board.now t) r.0.items) }
    ensures all { IfOk result (λ r. (k : ℕ) → k < seats_of board.now → has k (map number_of r.0.items) ≡ true) }
{
    let mut tickets = Vec::new(alloc);
    let mut lists = Vec::new(alloc);
    let mut are_sound = true;
    while let Some(worker) = workers.pop() {
        let Worker {
            ticket,
            drawn,
            is_sound,
        } = worker;
        lists.push(drawn)?;
        are_sound = are_sound && is_sound;
        tickets.push(ticket)?;
    }
    Ok((tickets, lists, are_sound))
}

impl Round {
    /// Plays the round and checks it: what each seat is to draw, that each stamp is drawn once, that the draws of each
    /// cell are one chain, and that each `Busy` names another seat. The answer doesn't depend on how the threads ran.
    pub fn run<R: Threads + Sync>(&self, rt: &R, alloc: Global) -> Result<String> {
        let desc = description(alloc);
        let Ok((board, tickets)) = Board::start(alloc, &desc, zeros(alloc, self.cells)?, self.seats)
        else {
            bail!("no memory for the board");
        };
        let plan = Plan {
            seats: self.seats,
            cells: self.cells,
            does_roam: self.does_roam,
            goal: (self.draws / self.seats) as usize,
            turns: MOST_TURNS,
        };
        let mut workers = hire(alloc, &board, tickets, plan.goal)?;
        work_all(rt, &board, workers.as_mut_slice(), &plan);
        let (tickets, lists, are_sound) = dismiss(alloc, &board, workers)?;
        let ends = board.close(tickets);
        if !are_sound {
            bail!("a seat was told of no other seat of the board");
        }
        for list in &lists {
            if list.len() != plan.goal {
                bail!("a seat didn't draw what it was to draw");
            }
        }
        if !is_one_order(alloc, lists.as_slice(), ends.as_slice())? {
            bail!("the draws aren't one order");
        }
        let text = format!(in alloc;
            "{} seats, {} cells: {} draws each, in one order",
            self.seats, self.cells, plan.goal
        )?;
        Ok(text)
    }
}
