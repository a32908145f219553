//! The cells that a seat holds while it makes a step, and how the step is drawn on them.

ghost use Rattle.std.specs.Prelude.{◌≡◌, ◌<◌, ◌≤◌, ◌^◌, ◌==◌, ◌∷◌, ℕ, true, false, [], length, vec_capacity};
ghost use Rattle.vfm_turn.specs.Order.{are_once};
ghost use Rattle.vfm_turn.specs.Seen.{are_rising, hold, touch};
ghost use Rattle.vfm_turn.specs.Words.{IsTicketOf, desc_of, holds_of, number_of, records_of, seen_of};
ghost use Rattle.vfm_cells.specs.Cells.{Cell};
ghost use Rattle.vfm_cells.specs.CellFits.{CellFits};
ghost use Rattle.vfm_cells.specs.Touched.{in_order};
ghost use Rattle.vfm_cell_steps.specs.Made.{two_cells};
ghost use Rattle.vfm_plant.specs.Hands.{AreAmong, AreFitting, AreParts, IsHolding, IsMaking, at_rest, cells_held, held, touches_by, turned, with_holds};

use vfm_cell_steps::Part;
use vfm_turn::{Board, Ticket};
use vfm_types::Entry;

// A held cell, and the part that lies in it.
#[derive(Drop)]
pub(crate) struct Hand {
    pub(crate) cell: u32,
    pub(crate) part: Part,
}

// shows each held cell as its part
fn show_all(board: &Board<Part>, t: &mut Ticket<Part>, hands: &Vec<Hand>)
    requires ticket { IsTicketOf board.now t.old }
    requires held { (before : ℕ → Cell) × (holds_of t.old ≡ held before before (cells_held hands.now.items)) }
    ensures ticket { IsTicketOf board.now t.new × (number_of t.new ≡ number_of t.old) }
    ensures shown { (before after : ℕ → Cell) → holds_of t.old ≡ held before before (cells_held hands.now.items) → AreParts after hands.now.items
        → seen_of t.new ≡ with_holds (held before after (cells_held hands.now.items)) (seen_of t.old) }
{
    for hand in hands.iter() {
        board.show(t, hand.cell, &hand.part);
    }
}

// leaves each held cell
pub(crate) fn leave_all(board: &Board<Part>, t: &mut Ticket<Part>, hands: &mut Vec<Hand>)
    requires ticket { IsTicketOf board.now t.old }
    requires held { IsHolding (desc_of board.now) (holds_of t.old) hands.old.items }
    ensures ticket { IsTicketOf board.now t.new × (number_of t.new ≡ number_of t.old) }
    ensures left { seen_of t.new ≡ at_rest (seen_of t.old) }
    ensures hands { (hands.new.items ≡ []) × (vec_capacity hands.new ≡ vec_capacity hands.old) }
{
    while let Some(hand) = hands.pop() {
        board.leave(t, hand.cell, hand.part);
    }
}

// Draws an entry that makes of these cells, all held, what now lies in them, and leaves each held cell. Answers the stamp.
pub(crate) fn turn(
    board: &Board<Part>,
    t: &mut Ticket<Part>,
    hands: &mut Vec<Hand>,
    cells: &[u32],
    e: &Entry,
) -> u64
    requires ticket { IsTicketOf board.now t.old }
    requires once { are_once (cells_held hands.old.items) ≡ true }
    requires fits { AreFitting (desc_of board.now) hands.old.items }
    requires some { 0 < length cells.now }
    requires rising { are_rising cells.now ≡ true }
    requires among { AreAmong cells.now (cells_held hands.old.items) }
    requires few { length (records_of t.old) < 2 ^ 32 }
    requires making { (before after : ℕ → Cell) × IsMaking (holds_of t.old) hands.old.items cells.now before after }
    ensures ticket { IsTicketOf board.now t.new × (number_of t.new ≡ number_of t.old) }
    ensures turned { (before after : ℕ → Cell) → IsMaking (holds_of t.old) hands.old.items cells.now before after
        → seen_of t.new ≡ turned (number_of t.old) result e.now (touches_by before after cells.now) (seen_of t.old) }
    ensures bounded { result < 2 ^ 39 }
    ensures hands { (hands.new.items ≡ []) × (vec_capacity hands.new ≡ vec_capacity hands.old) }
{
    show_all(board, t, hands);
    let stamp = board.draw(t, *e, cells);
    leave_all(board, t, hands);
    stamp
}

// the entry once more
pub(crate) fn again(e: &Entry) -> Entry
    ensures { result ≡ e.now }
{
    *e
}

// The same for an entry on one held cell, in which this part now lies.
pub(crate) fn draw_one(
    board: &Board<Part>,
    t: &mut Ticket<Part>,
    hands: &mut Vec<Hand>,
    hand: Hand,
    e: &Entry,
) -> u64
    requires ticket { IsTicketOf board.now t.old }
    requires hands { (hands.old.items ≡ []) × (1 ≤ vec_capacity hands.old) }
    requires fits { CellFits (desc_of board.now) hand.cell hand.part }
    requires few { length (records_of t.old) < 2 ^ 32 }
    requires held { (before : Cell) × (holds_of t.old ≡ hold hand.cell before before ∷ []) }
    ensures ticket { IsTicketOf board.now t.new × (number_of t.new ≡ number_of t.old) }
    ensures turned { (before : Cell) → holds_of t.old ≡ hold hand.cell before before ∷ []
        → seen_of t.new ≡ turned (number_of t.old) result e.now (touch hand.cell before hand.part ∷ []) (seen_of t.old) }
    ensures bounded { result < 2 ^ 39 }
    ensures hands { (hands.new.items ≡ []) × (vec_capacity hands.new ≡ vec_capacity hands.old) }
{
    let cells = [hand.cell];
    hands.push_reserved(hand);
    turn(board, t, hands, &cells, e)
}

// The same for an entry on two held cells, in which these parts now lie.
pub(crate) fn draw_two(
    board: &Board<Part>,
    t: &mut Ticket<Part>,
    hands: &mut Vec<Hand>,
    one: Hand,
    two: Hand,
    e: Entry,
) -> u64
    requires ticket { IsTicketOf board.now t.old }
    requires hands { (hands.old.items ≡ []) × (2 ≤ vec_capacity hands.old) }
    requires other { (one.cell == two.cell) ≡ false }
    requires fits { CellFits (desc_of board.now) one.cell one.part × CellFits (desc_of board.now) two.cell two.part }
    requires few { length (records_of t.old) < 2 ^ 32 }
    requires held { (this that : Cell) × (holds_of t.old ≡ hold one.cell this this ∷ hold two.cell that that ∷ []) }
    ensures ticket { IsTicketOf board.now t.new × (number_of t.new ≡ number_of t.old) }
    ensures turned { (this that : Cell) → holds_of t.old ≡ hold one.cell this this ∷ hold two.cell that that ∷ []
        → seen_of t.new ≡ turned (number_of t.old) result e
        (touches_by (two_cells one.cell this that) (two_cells one.cell one.part two.part) (in_order one.cell two.cell)) (seen_of t.old) }
    ensures bounded { result < 2 ^ 39 }
    ensures hands { (hands.new.items ≡ []) × (vec_capacity hands.new ≡ vec_capacity hands.old) }
{
    let a = one.cell;
    let b = two.cell;
    hands.push_reserved(one);
    hands.push_reserved(two);
    if a < b {
        let cells = [a, b];
        turn(board, t, hands, &cells, &e)
    } else {
        let cells = [b, a];
        turn(board, t, hands, &cells, &e)
    }
}
