//! What no clause says: worked readings, from the first to the end.

use crate::{Next, NotPreCopy, NotSaving, Session};
use std::test::Fail;
use vfm_space::Bar;
use vfm_types::MigState;

#[test]
fn one_block_is_read_before_the_stop(rt: HostRuntime) -> Result<(), Fail> {
    let mut bar = Bar::of(rt.alloc(), 64)?;
    let mut block = [1; 64];
    let mut session = Session::of(MigState::PreCopy, &mut bar);
    assert_eq!(rt; session.info(), Ok((64, 0)));
    assert_eq!(rt; session.next(), Ok(Next::Block(0)));
    session.take(0, &mut block);
    assert_eq!(rt; block, [0; 64]);
    assert_eq!(rt; session.info(), Ok((0, 0)));
    assert_eq!(rt; session.next(), Ok(Next::TemporaryEnd));
    let stopped = Session::of(MigState::StopCopy, &mut bar);
    assert_eq!(rt; stopped.next(), Ok(Next::End));
    assert_eq!(rt; stopped.info(), Err(NotPreCopy));
    let running = Session::of(MigState::RunningP2p, &mut bar);
    assert_eq!(rt; running.next(), Err(NotSaving));
    Ok(())
}

#[test]
fn a_write_over_the_middle_is_read_again(rt: HostRuntime) -> Result<(), Fail> {
    let mut bar = Bar::of(rt.alloc(), 128)?;
    let mut block = [0; 64];
    let mut session = Session::of(MigState::PreCopyP2p, &mut bar);
    session.take(0, &mut block);
    session.take(1, &mut block);
    bar.put(60, &[9; 8]);
    let mut session = Session::of(MigState::PreCopyP2p, &mut bar);
    assert_eq!(rt; session.info(), Ok((0, 128)));
    assert_eq!(rt; session.next(), Ok(Next::Block(0)));
    session.take(0, &mut block);
    assert_eq!(rt; &block[60..], [9; 4].as_slice());
    assert_eq!(rt; session.info(), Ok((0, 64)));
    assert_eq!(rt; session.next(), Ok(Next::Block(1)));
    Ok(())
}

// BARs of four blocks as plain marks: whether each is unread and whether it is dirty.
#[derive(Drop)]
struct Marks {
    unread: [bool; 4],
    dirty: [bool; 4],
}

impl Marks {
    // What a reading gives in a state that can be read from.
    fn next(&self, end: Next) -> Next {
        for b in 0..4u32 {
            if self.unread[b as usize] {
                return Next::Block(b);
            }
        }
        for b in 0..4u32 {
            if self.dirty[b as usize] {
                return Next::Block(b);
            }
        }
        end
    }

    // How many bytes are unread, and how many dirty.
    fn info(&self) -> (u32, u32) {
        let unread = self.unread.iter().filter(|m| **m).count() as u32;
        let dirty = self.dirty.iter().filter(|m| **m).count() as u32;
        (64 * unread, 64 * dirty)
    }
}

// One call that a random number picks, and whether it answers as the marks say.
fn step(bar: &mut Bar, marks: &mut Marks, draw: u64) -> bool {
    let b = draw / 8 % 4;
    if bar.bytes().len() != 256 {
        return false;
    }
    match draw % 8 {
        0 => {
            let mut block = [0; 64];
            Session::of(MigState::PreCopy, bar).take(b as u32, &mut block);
            marks.unread[b as usize] = false;
            marks.dirty[b as usize] = false;
            true
        }
        1 => {
            bar.write(64 * b as u32 + 9, &[7]);
            marks.dirty[b as usize] |= !marks.unread[b as usize];
            true
        }
        2 => Session::of(MigState::PreCopyP2p, bar).info() == Ok(marks.info()),
        3 => Session::of(MigState::PreCopy, bar).next() == Ok(marks.next(Next::TemporaryEnd)),
        4 => Session::of(MigState::StopCopy, bar).next() == Ok(marks.next(Next::End)),
        5 => Session::of(MigState::StopCopy, bar).info() == Err(NotPreCopy),
        6 => Session::of(MigState::Running, bar).next() == Err(NotSaving),
        _ => Session::of(MigState::Resuming, bar).info() == Err(NotPreCopy),
    }
}

#[test]
fn a_reading_follows_its_marks(rt: HostRuntime) -> Result<(), Fail> {
    let mut bar = Bar::of(rt.alloc(), 256)?;
    let mut marks = Marks {
        unread: [true; 4],
        dirty: [false; 4],
    };
    let mut seed = 7u64;
    for _ in 0..100_000u32 {
        seed = seed
            .wrapping_mul(6364136223846793005)
            .wrapping_add(1442695040888963407);
        assert!(rt; step(&mut bar, &mut marks, seed >> 33));
    }
    Ok(())
}
