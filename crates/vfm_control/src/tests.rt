//! Frames byte by byte and pairs event by event, with the values that the format and the machine give by hand.

use super::*;
use vfm_types::Refusal;

// Refused 24 0 0 of session 7.
const REFUSED: [u8; 44] = [
    0x56, 0x46, 0x4d, 0x52, 0, 0, 0, 0, 0, 0, 0, 7, 0, 0, 0, 24, 0, 0, 0, 0, 0, 0, 0, 0, 0, 0, 0,
    0, 0, 0, 0, 0, 0, 0, 0, 0, 0, 0, 0, 0, 0, 0, 0, 0,
];

// Staged of session 7 with the digest 1, 2, .. 32.
const STAGED: [u8; 44] = [
    0x56, 0x46, 0x4d, 0x53, 0, 0, 0, 0, 0, 0, 0, 7, 1, 2, 3, 4, 5, 6, 7, 8, 9, 10, 11, 12, 13, 14,
    15, 16, 17, 18, 19, 20, 21, 22, 23, 24, 25, 26, 27, 28, 29, 30, 31, 32,
];

const RISING: [u8; 32] = [
    1, 2, 3, 4, 5, 6, 7, 8, 9, 10, 11, 12, 13, 14, 15, 16, 17, 18, 19, 20, 21, 22, 23, 24, 25, 26,
    27, 28, 29, 30, 31, 32,
];

const MISSING: Refusal = Refusal {
    code: 24,
    a: 0,
    b: 0,
};

// These bytes with one of them changed.
fn changed<const N: usize>(bytes: &[u8; N], place: usize, byte: u8) -> [u8; N] {
    let mut copy = *bytes;
    for (i, b) in copy.iter_mut().enumerate() {
        if i == place {
            *b = byte;
        }
    }
    copy
}

#[test]
fn worked_frames_are_encoded_and_decoded(rt: HostRuntime) {
    let refused = Frame::Refused {
        session: 7,
        refusal: MISSING,
    };
    assert_eq!(rt; encode(&refused), REFUSED);
    assert_eq!(rt; decode(&REFUSED, 7), Some(refused));
    let staged = Frame::Staged {
        session: 7,
        digest: RISING,
    };
    assert_eq!(rt; encode(&staged), STAGED);
    assert_eq!(rt; decode(&STAGED, 7), Some(staged));
    let go = Frame::Go {
        session: 7,
        digest: RISING,
    };
    assert_eq!(rt; encode(&go), changed(&STAGED, 3, 0x47));
    assert_eq!(rt; decode(&changed(&STAGED, 3, 0x47), 7), Some(go));
}

#[test]
fn each_number_of_a_refusal_has_its_place(rt: HostRuntime) {
    let far = Frame::Refused {
        session: 0x0102_0304_0506_0708,
        refusal: Refusal {
            code: 0x090a_0b0c,
            a: 0x0d0e_0f10_1112_1314,
            b: 0x1516_1718_191a_1b1c,
        },
    };
    let want: [u8; 44] = [
        0x56, 0x46, 0x4d, 0x52, 1, 2, 3, 4, 5, 6, 7, 8, 9, 10, 11, 12, 13, 14, 15, 16, 17, 18, 19,
        20, 21, 22, 23, 24, 25, 26, 27, 28, 0, 0, 0, 0, 0, 0, 0, 0, 0, 0, 0, 0,
    ];
    assert_eq!(rt; encode(&far), want);
    assert_eq!(rt; decode(&want, 0x0102_0304_0506_0708), Some(far));
    assert_eq!(rt; decode(&want, 7), None);
}

// What the byte at this place makes of the frame Staged or Go: another frame by its letter, another digest, or none.
fn changed_digest_frame(letter: u8, place: usize, byte: u8) -> Option<Frame> {
    let letter = if place == 3 { byte } else { letter };
    let digest = if place < 12 {
        RISING
    } else {
        changed(&RISING, place - 12, byte)
    };
    match (place, letter) {
        (3 | 12..=43, 0x53) => Some(Frame::Staged { session: 7, digest }),
        (3 | 12..=43, 0x47) => Some(Frame::Go { session: 7, digest }),
        _ => None,
    }
}

#[test]
fn one_changed_byte_of_a_digest_frame(rt: HostRuntime) {
    for letter in [0x53, 0x47] {
        let frame = changed(&STAGED, 3, letter);
        for place in 0..44 {
            for byte in 0..=255 {
                let bytes = changed(&frame, place, byte);
                if bytes != frame {
                    assert!(rt;
                        decode(&bytes, 7) == changed_digest_frame(letter, place, byte),
                        "letter {letter}, byte {place} is {byte}"
                    );
                }
            }
        }
    }
}

// What a unit of the byte at a place is worth in its number, the highest byte first.
const WORTH: [u64; 8] = [
    0x0100_0000_0000_0000,
    0x0001_0000_0000_0000,
    0x0000_0100_0000_0000,
    0x0000_0001_0000_0000,
    0x0100_0000,
    0x0001_0000,
    0x0100,
    1,
];

// What the byte at this place makes of the refusal 24 0 0: only its three numbers may change.
fn changed_refusal(place: usize, byte: u8) -> Option<Refusal> {
    let number = u64::from(byte).wrapping_mul(WORTH[place % 8]);
    match place {
        // the code: its last byte was 24, the others zero
        12..=14 => Some(Refusal {
            code: 24 + u32::from(byte) * [0x0100_0000, 0x0001_0000, 0x0100][place - 12],
            a: 0,
            b: 0,
        }),
        15 => Some(Refusal {
            code: u32::from(byte),
            a: 0,
            b: 0,
        }),
        16..=23 => Some(Refusal {
            code: 24,
            a: number,
            b: 0,
        }),
        24..=31 => Some(Refusal {
            code: 24,
            a: 0,
            b: number,
        }),
        _ => None,
    }
}

#[test]
fn one_changed_byte_of_a_refusal(rt: HostRuntime) {
    // with another letter the same body is a digest
    let digest = changed(&[0; 32], 3, 24);
    for place in 0..44 {
        for byte in 0..=255 {
            let bytes = changed(&REFUSED, place, byte);
            if bytes != REFUSED {
                let want = match (place, byte) {
                    (3, 0x53) => Some(Frame::Staged { session: 7, digest }),
                    (3, 0x47) => Some(Frame::Go { session: 7, digest }),
                    _ => changed_refusal(place, byte).map(|refusal| Frame::Refused {
                        session: 7,
                        refusal,
                    }),
                };
                assert!(rt; decode(&bytes, 7) == want, "byte {place} is {byte}");
            }
        }
    }
}

const X: [u8; 32] = RISING;

// X with another last byte.
const Y: [u8; 32] = [
    1, 2, 3, 4, 5, 6, 7, 8, 9, 10, 11, 12, 13, 14, 15, 16, 17, 18, 19, 20, 21, 22, 23, 24, 25, 26,
    27, 28, 29, 30, 31, 33,
];

#[test]
fn a_pair_that_moves(rt: HostRuntime) {
    let mut pair = Pair::of(X);
    assert_eq!(rt; pair.source(), SourceEnd::Offered(X));
    assert_eq!(rt; pair.dest(), DestEnd::Staging);
    assert_eq!(rt; pair.answer(), None);
    assert_eq!(rt; pair.go(), None);
    for (event, want, source, dest) in [
        (
            PairEvent::SendGo,
            Err(NotNow),
            SourceEnd::Offered(X),
            DestEnd::Staging,
        ),
        (
            PairEvent::DeliverAnswer,
            Err(NotNow),
            SourceEnd::Offered(X),
            DestEnd::Staging,
        ),
        (
            PairEvent::Stage(X),
            Ok(()),
            SourceEnd::Offered(X),
            DestEnd::Staged(X),
        ),
        (
            PairEvent::Stage(X),
            Err(NotNow),
            SourceEnd::Offered(X),
            DestEnd::Staged(X),
        ),
        (
            PairEvent::DeliverAnswer,
            Ok(()),
            SourceEnd::Heard(X),
            DestEnd::Staged(X),
        ),
        (
            PairEvent::DeliverGo,
            Err(NotNow),
            SourceEnd::Heard(X),
            DestEnd::Staged(X),
        ),
        (
            PairEvent::SendGo,
            Ok(()),
            SourceEnd::GoSent(X),
            DestEnd::Staged(X),
        ),
        (
            PairEvent::GiveUp,
            Err(NotNow),
            SourceEnd::GoSent(X),
            DestEnd::Staged(X),
        ),
        (
            PairEvent::DeliverGo,
            Ok(()),
            SourceEnd::GoSent(X),
            DestEnd::Running(X),
        ),
        (
            PairEvent::DeliverGo,
            Ok(()),
            SourceEnd::GoSent(X),
            DestEnd::Running(X),
        ),
        (
            PairEvent::DeliverAnswer,
            Ok(()),
            SourceEnd::GoSent(X),
            DestEnd::Running(X),
        ),
        (
            PairEvent::StopSource,
            Ok(()),
            SourceEnd::Stopped,
            DestEnd::Running(X),
        ),
        (
            PairEvent::GiveUp,
            Err(NotNow),
            SourceEnd::Stopped,
            DestEnd::Running(X),
        ),
        (
            PairEvent::StopDest,
            Ok(()),
            SourceEnd::Stopped,
            DestEnd::Stopped,
        ),
        (
            PairEvent::DeliverGo,
            Ok(()),
            SourceEnd::Stopped,
            DestEnd::Stopped,
        ),
    ] {
        assert_eq!(rt; pair.step(event), want);
        assert_eq!(rt; pair.source(), source);
        assert_eq!(rt; pair.dest(), dest);
    }
    assert_eq!(rt; pair.answer(), Some(Answer::Staged(X)));
    assert_eq!(rt; pair.go(), Some(X));
}

#[test]
fn pairs_that_do_not_move(rt: HostRuntime) {
    // the destination staged another state
    let mut pair = Pair::of(X);
    for (event, want, source) in [
        (PairEvent::Stage(Y), Ok(()), SourceEnd::Offered(X)),
        (PairEvent::DeliverAnswer, Ok(()), SourceEnd::Offered(X)),
        (PairEvent::SendGo, Err(NotNow), SourceEnd::Offered(X)),
        (PairEvent::GiveUp, Ok(()), SourceEnd::Resumed),
        (PairEvent::GiveUp, Err(NotNow), SourceEnd::Resumed),
    ] {
        assert_eq!(rt; pair.step(event), want);
        assert_eq!(rt; pair.source(), source);
    }
    assert_eq!(rt; pair.dest(), DestEnd::Staged(Y));
    // the source gives up though it has heard its digest
    let mut pair = Pair::of(X);
    for (event, want, source) in [
        (PairEvent::Stage(X), Ok(()), SourceEnd::Offered(X)),
        (PairEvent::DeliverAnswer, Ok(()), SourceEnd::Heard(X)),
        (PairEvent::GiveUp, Ok(()), SourceEnd::Resumed),
        (PairEvent::SendGo, Err(NotNow), SourceEnd::Resumed),
        (PairEvent::DeliverAnswer, Ok(()), SourceEnd::Resumed),
    ] {
        assert_eq!(rt; pair.step(event), want);
        assert_eq!(rt; pair.source(), source);
    }
    assert_eq!(rt; pair.step(PairEvent::DeliverGo), Err(NotNow));
    // the destination refuses
    let mut pair = Pair::of(X);
    assert_eq!(rt; pair.step(PairEvent::Refuse(MISSING)), Ok(()));
    assert_eq!(rt; pair.step(PairEvent::Stage(X)), Err(NotNow));
    assert_eq!(rt; pair.step(PairEvent::DeliverAnswer), Ok(()));
    assert_eq!(rt; pair.source(), SourceEnd::Offered(X));
    assert_eq!(rt; pair.dest(), DestEnd::Refused(MISSING));
    assert_eq!(rt; pair.answer(), Some(Answer::Refused(MISSING)));
}
