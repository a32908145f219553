//! What no clause says: a log beside a plain list of marks, over many calls.

use crate::{AlreadyStarted, DirtyLog, NotStarted};
use std::test::Fail;
use vfm_types::PageSet;

#[test]
fn a_log_is_started_once(rt: HostRuntime) {
    let mut log = DirtyLog::new();
    let mut pages = PageSet::new();
    log.mark(3);
    assert_eq!(rt; log.report(&mut pages), Err(NotStarted));
    assert_eq!(rt; log.stop(), Err(NotStarted));
    assert_eq!(rt; log.start(), Ok(()));
    assert_eq!(rt; log.start(), Err(AlreadyStarted));
    log.mark(1023);
    log.mark(1023);
    assert_eq!(rt; log.report(&mut pages), Ok(1));
    assert_eq!(rt; log.report(&mut pages), Ok(0));
    assert!(rt; pages.has(1023) && !pages.has(3));
    assert_eq!(rt; pages.len(), 1);
    assert_eq!(rt; log.stop(), Ok(()));
    assert!(rt; !log.is_started());
}

// One call that a random number picks, on a log and on a plain array of marks beside it. Whether both answered alike.
fn step(log: &mut DirtyLog, started: &mut bool, marked: &mut [bool; 1024], draw: u64) -> bool {
    let p = draw / 8 % 1024;
    match draw % 8 {
        0 => {
            let was = *started;
            if !was {
                *started = true;
                *marked = [false; 1024];
            }
            log.start().is_err() == was
        }
        1 => {
            let was = *started;
            *started = false;
            *marked = [false; 1024];
            log.stop().is_ok() == was
        }
        2 => {
            let mut pages = PageSet::new();
            let answer = log.report(&mut pages);
            let is_same = (0..1024u32).all(|q| pages.has(q) == (*started && marked[q as usize]));
            if *started {
                *marked = [false; 1024];
            }
            is_same && answer.is_ok() == *started
        }
        _ => {
            log.mark(p as u32);
            if *started {
                marked[p as usize] = true;
            }
            true
        }
    }
}

#[test]
fn a_log_is_a_list_of_marks(rt: HostRuntime) -> Result<(), Fail> {
    let mut log = DirtyLog::new();
    let mut started = false;
    let mut marked = [false; 1024];
    let mut seed = 7u64;
    for _ in 0..100_000u32 {
        seed = seed
            .wrapping_mul(6364136223846793005)
            .wrapping_add(1442695040888963407);
        assert!(rt; step(&mut log, &mut started, &mut marked, seed >> 33));
    }
    Ok(())
}
