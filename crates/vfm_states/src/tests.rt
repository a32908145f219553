//! All answers against a table that was computed apart from this code.

use crate::{next_state, path};
use std::process::Abort;
use vfm_types::{Flags, MigState, PathFault};

// What `path` answers, a word for each: the numbers of the states in `linux/vfio.h`, or a letter for a refusal:
// e from ERROR, u the first state is unsupported, t the target is, f forbidden.
// Flags 1, 3, 5, 7, eight lines each; a line for each first state, 0 to 7; in it a word for each target, 0 to 7.
// A small program made it out of the table in docs/MODEL.md, asking again from each state that isn't supported.
const ANSWERS: &str = "
        e e e e e e e e
        f 1 12 13 14 t t t
        f 21 2 213 214 t t t
        f 31 312 3 314 t t t
        f 41 412 413 4 t t t
        f u u u u u u u
        f u u u u u u u
        f u u u u u u u
        e e e e e e e e
        f 1 152 13 14 15 t t
        f 251 2 2513 2514 25 t t
        f 31 3152 3 314 315 t t
        f 41 4152 413 4 415 t t
        f 51 52 513 514 5 t t
        f u u u u u u u
        f u u u u u u u
        e e e e e e e e
        f 1 12 13 14 t 126 t
        f 21 2 213 214 t 26 t
        f 31 312 3 314 t f t
        f 41 412 413 4 t 4126 t
        f u u u u u u u
        f 621 62 63 6214 t 6 t
        f u u u u u u u
        e e e e e e e e
        f 1 152 13 14 15 1526 157
        f 251 2 2513 2514 25 26 267
        f 31 3152 3 314 315 f f
        f 41 4152 413 4 415 41526 4157
        f 51 52 513 514 5 526 57
        f 6251 62 673 62514 625 6 67
        f 751 752 73 7514 75 76 7
";

#[test]
fn answers_are_those_of_the_table(rt: HostRuntime) {
    let mut count = 0u32;
    for word in ANSWERS.split_whitespace() {
        assert!(rt; count < 256);
        let bits = match count / 64 {
            0 => 1,
            1 => 3,
            2 => 5,
            _ => 7,
        };
        compare(&rt, bits, count / 8 % 8, count % 8, word.as_bytes());
        count += 1;
    }
    assert_eq!(rt; count, 256);
}

// Compares both answers with a word of the table.
fn compare(rt: &impl Abort, bits: u8, from: u32, to: u32, word: &[u8]) {
    let flags = Flags::of(bits).expect(rt, "flags");
    let from = MigState::of_number(from).expect(rt, "a first state");
    let to = MigState::of_number(to).expect(rt, "a target");
    match path(from, to, flags) {
        Ok(route) => {
            assert_eq!(rt; route.len() as usize, word.len());
            for i in 0..route.len() {
                assert_eq!(rt; digit(route.at(i)), word[i as usize]);
            }
        }
        Err(fault) => assert_eq!(rt; word, [letter(fault, from, to)].as_slice()),
    }
    let second = word.get(1).copied();
    match next_state(from, to, flags) {
        Ok(next) => assert_eq!(rt; Some(digit(next)), second.or(word.first().copied())),
        Err(fault) => assert_eq!(rt; word, [letter(fault, from, to)].as_slice()),
    }
}

// The digit of a state in `linux/vfio.h`.
fn digit(state: MigState) -> u8 {
    match state {
        MigState::Error => b'0',
        MigState::Stop => b'1',
        MigState::Running => b'2',
        MigState::StopCopy => b'3',
        MigState::Resuming => b'4',
        MigState::RunningP2p => b'5',
        MigState::PreCopy => b'6',
        MigState::PreCopyP2p => b'7',
    }
}

// The letter of a refusal on the way between two states.
fn letter(fault: PathFault, from: MigState, to: MigState) -> u8 {
    match fault {
        PathFault::FromError => b'e',
        PathFault::Forbidden { from: a, to: b }
            if digit(a) == digit(from) && digit(b) == digit(to) => b'f',
        PathFault::Forbidden { .. } => b'?',
        PathFault::Unsupported(a) if digit(a) == digit(from) => b'u',
        PathFault::Unsupported(a) if digit(a) == digit(to) => b't',
        PathFault::Unsupported(_) => b'?',
    }
}
