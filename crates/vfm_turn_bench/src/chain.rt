//! Whether what the seats drew is one order, and one chain for each cell.

use crate::count::Count;
use crate::worker::Draw;
use std::alloc::{AllocError, Global};

/// Whether the stamps of all draws are the numbers from 0, each once; whether in their order each draw finds its cell
/// as the one before it on that cell left it, first 0; and whether each cell ends as its last draw left it.
pub fn is_one_order(
    alloc: Global,
    lists: &[Vec<Draw>],
    ends: &[Count],
) -> Result<bool, AllocError> {
    let mut order = Vec::new(alloc);
    for draws in lists {
        for _draw in draws.as_slice() {
            order.push(None)?;
        }
    }
    for draws in lists {
        if !take_places(order.as_mut_slice(), draws.as_slice()) {
            return Ok(false);
        }
    }
    let mut counts = Vec::new(alloc);
    for _end in ends {
        counts.push(0u64)?;
    }
    if !follow(order.as_slice(), counts.as_mut_slice()) {
        return Ok(false);
    }
    Ok(counts.iter().zip(ends).all(|(count, end)| *count == end.0))
}

// puts each draw at the place of its stamp; whether each had a free one
fn take_places(order: &mut [Option<Draw>], draws: &[Draw]) -> bool {
    for draw in draws {
        let Ok(place) = usize::try_from(draw.stamp) else {
            return false;
        };
        if place >= order.len() || order[place].is_some() {
            return false;
        }
        order[place] = Some(*draw);
    }
    true
}

// counts the draws of each cell, in order; whether each found the count before it
fn follow(order: &[Option<Draw>], counts: &mut [u64]) -> bool {
    for place in order {
        let Some(draw) = place else {
            return false;
        };
        let cell = draw.cell as usize;
        if cell >= counts.len() || counts[cell] != draw.before {
            return false;
        }
        counts[cell] = draw.before.wrapping_add(1);
    }
    true
}
