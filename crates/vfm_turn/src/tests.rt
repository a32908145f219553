//! The worked cases of a board.

ghost use Rattle.std.specs.Prelude.{◌≡◌, ◌<◌, ◌+◌, ◌^◌, ◌++◌, ℕ, [], ◌∷◌, map, length, All, IfOk, vec_len, vec_capacity};
ghost use Rattle.vfm_turn.specs.Seen.{hold};
ghost use Rattle.vfm_turn.specs.Words.{IsTicketOf, cells_of, number_of, holds_of, records_of};

use crate::{Board, Busy, Kept, Ticket};
use std::alloc::{AllocError, Global};
use std::process::Abort;
use std::test::Fail;
use vfm_types::{Desc, DeviceId, Entry, Shapes};

// a cell's value: a count
#[derive(Drop)]
struct Count(u64);

impl Kept for Count {
    type State = u64;

    ghost state = { λ count. count.0 };

    ghost fits = { λ desc cell count. Unit {0} };
}

// any description
fn description(alloc: Global) -> Desc {
    Desc {
        session: 1,
        page: 16,
        pages: 1,
        channels: 1,
        version: 1,
        begin: 0,
        rounds: 0,
        threshold: 0,
        devices: Shapes::of(Vec::new(alloc)),
    }
}

// so many cells, of which cell c has the count 10 + c
fn counts(alloc: Global, cells: u64) -> Result<Vec<Count>, AllocError>
    requires { cells < 2000 }
    ensures { IfOk result (λ v. length v.items ≡ cells) }
{
    let mut list = Vec::new(alloc);
    for c in 0..cells {
        list.push(Count(10 + c))?;
    }
    Ok(list)
}

// draws an entry on the one held cell, and shows it in this state first
fn draw_held(board: &Board<Count>, t: &mut Ticket<Count>, e: Entry, cell: u32, after: &Count) -> u64
    requires ticket { IsTicketOf board.now t.old }
    requires held { (z y : ℕ) × (holds_of t.old ≡ hold cell z y ∷ []) }
    requires few { length (records_of t.old) < 2 ^ 32 }
    ensures ticket { IsTicketOf board.now t.new × (number_of t.new ≡ number_of t.old) }
    ensures held { holds_of t.new ≡ hold cell after.now.0 after.now.0 ∷ [] }
    ensures few { length (records_of t.new) ≡ length (records_of t.old) + 1 }
{
    board.show(t, cell, after);
    let cells = [cell];
    board.draw(t, e, &cells)
}

// Enters a cell, counts up, draws an entry and leaves. A cell that another seat holds fails the test.
fn draw_on(rt: &impl Abort, board: &Board<Count>, t: &mut Ticket<Count>, e: Entry, cell: u32) -> u64
    requires ticket { IsTicketOf board.now t.old }
    requires rest { holds_of t.old ≡ [] }
    requires cell { cell < cells_of board.now }
    requires few { length (records_of t.old) < 2 ^ 32 }
    ensures ticket { IsTicketOf board.now t.new × (number_of t.new ≡ number_of t.old) }
    ensures rest { holds_of t.new ≡ [] }
    ensures few { length (records_of t.new) ≡ length (records_of t.old) + 1 }
{
    let Ok(value) = board.enter(t, cell) else {
        panic!(rt; "the cell isn't free")
    };
    let after = Count(value.0.wrapping_add(1));
    let stamp = draw_held(board, t, e, cell, &after);
    board.leave(t, cell, after);
    stamp
}

// the last of tickets that have done nothing yet
fn take_last(board: &Board<Count>, tickets: &mut Vec<Ticket<Count>>) -> Ticket<Count>
    requires some { 0 < vec_len tickets.old }
    requires rest { All (λ t. IsTicketOf board.now t × (holds_of t ≡ []) × (records_of t ≡ [])) tickets.old.items }
    ensures numbers { map number_of tickets.old.items ≡ map number_of tickets.new.items ++ number_of result ∷ [] }
    ensures one { IsTicketOf board.now result × (holds_of result ≡ []) × (length (records_of result) ≡ 0) }
    ensures rest { All (λ t. IsTicketOf board.now t × (holds_of t ≡ []) × (records_of t ≡ [])) tickets.new.items }
    ensures room { (vec_len tickets.new + 1 ≡ vec_len tickets.old) × (vec_capacity tickets.new ≡ vec_capacity tickets.old) }
{
    let Some(t) = tickets.pop() else {
        unreachable!()
    };
    t
}

// puts a ticket back behind the others
fn put_back(board: &Board<Count>, tickets: &mut Vec<Ticket<Count>>, t: Ticket<Count>)
    requires room { vec_len tickets.old < vec_capacity tickets.old }
    requires one { IsTicketOf board.now t × (holds_of t ≡ []) }
    requires rest { All (λ t. IsTicketOf board.now t × (holds_of t ≡ [])) tickets.old.items }
    ensures numbers { map number_of tickets.new.items ≡ map number_of tickets.old.items ++ number_of t ∷ [] }
    ensures rest { All (λ t. IsTicketOf board.now t × (holds_of t ≡ [])) tickets.new.items }
    ensures room { (vec_len tickets.new ≡ vec_len tickets.old + 1) × (vec_capacity tickets.new ≡ vec_capacity tickets.old) }
{
    tickets.push_reserved(t);
}

#[test]
fn one_seat_draws_begin_and_joint(rt: HostRuntime) -> Result<(), Fail> {
    let alloc: Global = rt.alloc();
    let desc = description(alloc);
    let Ok((board, mut tickets)) = Board::start(alloc, &desc, counts(alloc, 1)?, 1) else {
        return Err(AllocError.into());
    };
    let mut t = take_last(&board, &mut tickets);
    assert_eq!(rt; board.now(&mut t), 0);
    let Ok(value) = board.enter(&mut t, 0) else {
        panic!(&rt; "the cell is free")
    };
    assert_eq!(rt; value.0, 10);
    assert_eq!(rt; draw_held(&board, &mut t, Entry::Begin, 0, &Count(11)), 0);
    let last = Count(12);
    assert_eq!(rt; draw_held(&board, &mut t, Entry::Joint, 0, &last), 1);
    board.leave(&mut t, 0, last);
    assert_eq!(rt; board.now(&mut t), 2);
    put_back(&board, &mut tickets, t);
    let back = board.close(tickets);
    assert_eq!(rt; back.len(), 1);
    assert_eq!(rt; back[0].0, 12);
    Ok(())
}

#[test]
fn two_seats_on_twelve_cells(rt: HostRuntime) -> Result<(), Fail> {
    let alloc: Global = rt.alloc();
    let desc = description(alloc);
    let Ok((board, mut tickets)) = Board::start(alloc, &desc, counts(alloc, 12)?, 2) else {
        return Err(AllocError.into());
    };
    let mut one = take_last(&board, &mut tickets);
    let mut zero = take_last(&board, &mut tickets);
    let first = board.enter(&mut zero, 1);
    let second = board.enter(&mut one, 2);
    let (Ok(first), Ok(second)) = (first, second) else {
        panic!(&rt; "both cells are free")
    };
    let Err(busy) = board.enter(&mut one, 1) else {
        panic!(&rt; "the cell is held")
    };
    assert_eq!(rt; busy, Busy { cell: 1, holder: 0 });
    let issue = Entry::Issue {
        d: DeviceId(0),
        n: 0,
    };
    let other = Entry::Issue {
        d: DeviceId(1),
        n: 0,
    };
    assert_eq!(rt; draw_held(&board, &mut zero, issue, 1, &first), 0);
    assert_eq!(rt; draw_held(&board, &mut one, other, 2, &second), 1);
    board.leave(&mut zero, 1, first);
    board.leave(&mut one, 2, second);
    put_back(&board, &mut tickets, zero);
    put_back(&board, &mut tickets, one);
    let back = board.close(tickets);
    assert_eq!(rt; back.len(), 12);
    assert_eq!(rt; back[1].0, 11);
    assert_eq!(rt; back[2].0, 12);
    assert_eq!(rt; back[11].0, 21);
    Ok(())
}

#[test]
fn sixty_four_seats_on_many_cells(rt: HostRuntime) -> Result<(), Fail> {
    let alloc: Global = rt.alloc();
    let desc = description(alloc);
    let Ok((board, mut tickets)) = Board::start(alloc, &desc, counts(alloc, 1100)?, 64) else {
        return Err(AllocError.into());
    };
    assert_eq!(rt; tickets.len(), 64);
    let mut last = take_last(&board, &mut tickets);
    let dry = Entry::Dry { d: DeviceId(7) };
    assert_eq!(rt; draw_on(&rt, &board, &mut last, dry, 1099), 0);
    assert_eq!(rt; draw_on(&rt, &board, &mut last, dry, 0), 1);
    assert_eq!(rt; draw_on(&rt, &board, &mut last, dry, 1099), 2);
    put_back(&board, &mut tickets, last);
    let back = board.close(tickets);
    assert_eq!(rt; back.len(), 1100);
    assert_eq!(rt; back[0].0, 11);
    assert_eq!(rt; back[1].0, 11);
    assert_eq!(rt; back[1099].0, 1111);
    Ok(())
}
