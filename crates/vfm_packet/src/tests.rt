//! The bytes of worked headers, and each cause, written from the format by hand.

ghost use Rattle.std.specs.Prelude.{◌≤◌};

use super::*;

// The header of the first packet of the worked move: version 1, data, session 7, stream 0, index 0, 21 bytes.
const FIRST: [u8; 40] = [
    0x56, 0x46, 0x4d, 0x44, 0x00, 0x01, 0x00, 0x01, 0, 0, 0, 0, 0, 0, 0, 7, 0, 0, 0, 0, 0, 0, 0, 0,
    0, 0, 0, 0x15, 0, 0, 0, 0, 0, 0, 0, 0, 0, 0, 0, 0,
];

const EXPECT: Expect = Expect {
    version: 1,
    session: 7,
    streams: 2,
};

// The first header with one byte changed.
fn changed(place: usize, byte: u8) -> [u8; 40] {
    let mut head = FIRST;
    for (i, b) in head.iter_mut().enumerate() {
        if i == place {
            *b = byte;
        }
    }
    head
}

#[test]
fn worked_headers_are_encoded(rt: HostRuntime) {
    let first = Header {
        version: 1,
        kind: Kind::Data,
        session: 7,
        stream: 0,
        index: 0,
        length: 21,
    };
    assert_eq!(rt; encode_head(&first), FIRST);
    let far = Header {
        version: 0x0102,
        kind: Kind::Abort,
        session: 0x0304_0506_0708_090a,
        stream: 0x0b0c_0d0e,
        index: 0x0f10_1112,
        length: 0x1314_1516,
    };
    let want: [u8; 40] = [
        0x56, 0x46, 0x4d, 0x44, 1, 2, 0, 4, 3, 4, 5, 6, 7, 8, 9, 10, 11, 12, 13, 14, 15, 16, 17,
        18, 19, 20, 21, 22, 0, 0, 0, 0, 0, 0, 0, 0, 0, 0, 0, 0,
    ];
    assert_eq!(rt; encode_head(&far), want);
}

#[test]
fn a_packet_is_whole_from_its_last_byte_on(rt: HostRuntime) {
    let head = Header {
        version: 1,
        kind: Kind::Data,
        session: 7,
        stream: 0,
        index: 0,
        length: 21,
    };
    let mut bytes = [9; 62];
    for (b, h) in bytes.iter_mut().zip(FIRST) {
        *b = h;
    }
    for (len, want) in [
        (0, Decoded::More),
        (39, Decoded::More),
        (40, Decoded::More),
        (60, Decoded::More),
        (61, Decoded::Packet { head, used: 61 }),
        (62, Decoded::Packet { head, used: 61 }),
    ] {
        assert_eq!(rt; decode(&bytes[..len], &EXPECT), want, "{len} bytes");
    }
    assert_eq!(rt; packet_size(&head), 61);
}

#[test]
fn one_wrong_byte_has_its_cause(rt: HostRuntime) {
    for (place, byte, want) in [
        (0, 0x57, Cause::Magic),
        (3, 0x45, Cause::Magic),
        (4, 1, Cause::Version),
        (5, 2, Cause::Version),
        (6, 1, Cause::Kind),
        (7, 0, Cause::Kind),
        (7, 5, Cause::Kind),
        (8, 1, Cause::Foreign),
        (15, 6, Cause::Foreign),
        (16, 1, Cause::Foreign),
        (19, 2, Cause::Foreign),
        (27, 0, Cause::Length),
        (25, 1, Cause::Length),
        (24, 1, Cause::Length),
        (28, 1, Cause::Spare),
        (36, 1, Cause::Spare),
        (39, 1, Cause::Spare),
        // an end and an abort packet with a length
        (7, 3, Cause::Spare),
        (7, 4, Cause::Spare),
    ] {
        assert_eq!(rt;
            decode(&changed(place, byte), &EXPECT),
            Decoded::Bad { cause: want },
            "byte {place}"
        );
    }
    // the last stream, another index and the longest first byte of a length are as good as the first
    for (place, byte) in [(19, 1), (20, 255), (23, 1), (26, 255)] {
        assert_eq!(rt;
            decode(&changed(place, byte), &EXPECT),
            Decoded::More,
            "byte {place}"
        );
    }
}

// The first header up to a place, and from there on bytes of all ones.
fn right_up_to(place: usize) -> [u8; 40] {
    let mut head = FIRST;
    for (i, b) in head.iter_mut().enumerate() {
        if place <= i {
            *b = 0xff;
        }
    }
    head
}

#[test]
fn the_first_cause_of_the_order_is_answered(rt: HostRuntime) {
    for (place, want) in [
        (0, Cause::Magic),
        (4, Cause::Version),
        (6, Cause::Kind),
        (8, Cause::Foreign),
        (16, Cause::Foreign),
        (24, Cause::Length),
        (28, Cause::Spare),
        (39, Cause::Spare),
    ] {
        assert_eq!(rt;
            decode(&right_up_to(place), &EXPECT),
            Decoded::Bad { cause: want },
            "up to {place}"
        );
    }
}

#[test]
fn lengths_and_marks_at_their_bounds(rt: HostRuntime) {
    // length, by its four bytes: 65,536 is the longest payload
    for (length, want) in [
        ([0, 0, 0, 1], Decoded::More),
        ([0, 1, 0, 0], Decoded::More),
        (
            [0, 1, 0, 1],
            Decoded::Bad {
                cause: Cause::Length,
            },
        ),
        (
            [0, 0, 0, 0],
            Decoded::Bad {
                cause: Cause::Length,
            },
        ),
    ] {
        let mut head = FIRST;
        for (b, l) in head.iter_mut().skip(24).zip(length) {
            *b = l;
        }
        assert_eq!(rt; decode(&head, &EXPECT), want);
    }
    // an end and an abort packet: whole as they are, with nothing in stream, index and length
    for (number, kind) in [(3, Kind::End), (4, Kind::Abort)] {
        let mark = Header {
            version: 1,
            kind,
            session: 7,
            stream: 0,
            index: 0,
            length: 0,
        };
        let mut head = encode_head(&mark);
        assert_eq!(rt; head[7], number);
        assert_eq!(rt;
            decode(&head, &EXPECT),
            Decoded::Packet {
                head: mark,
                used: 40
            }
        );
        for place in [19, 23, 27] {
            for (i, b) in head.iter_mut().enumerate() {
                if 15 < i {
                    *b = if i == place { 1 } else { 0 };
                }
            }
            assert_eq!(rt;
                decode(&head, &EXPECT),
                Decoded::Bad {
                    cause: Cause::Spare
                },
                "byte {place}"
            );
        }
    }
}

#[test]
fn numbers_of_kinds_and_causes(rt: HostRuntime) {
    for (number, kind) in [
        (0, None),
        (1, Some(Kind::Data)),
        (2, Some(Kind::Config)),
        (3, Some(Kind::End)),
        (4, Some(Kind::Abort)),
        (5, None),
        (65_535, None),
    ] {
        assert_eq!(rt; Kind::of_number(number), kind);
        if let Some(kind) = kind {
            assert_eq!(rt; kind.number(), number);
        }
    }
    for (cause, number) in [
        (Cause::Magic, 1),
        (Cause::Version, 2),
        (Cause::Kind, 3),
        (Cause::Foreign, 4),
        (Cause::Length, 5),
        (Cause::Spare, 6),
        (Cause::Corrupt, 13),
    ] {
        assert_eq!(rt; cause.number(), number);
    }
}

const EXPECT_SEALED: Expect = Expect {
    version: 2,
    session: 7,
    streams: 2,
};

// The seals of the packets below, by another program: a data packet of stream 0 and index 0 with the payload "abc", an
// end packet and an abort packet, all of session 7.
const DATA_SEAL: [u8; 32] = [
    0x8c, 0x06, 0x58, 0xa8, 0xa3, 0x7a, 0x42, 0x34, 0x2a, 0x87, 0x92, 0x31, 0xc8, 0x51, 0x37, 0xc9,
    0x57, 0xd0, 0xba, 0xab, 0xa2, 0x74, 0x86, 0x7f, 0x14, 0x09, 0x96, 0x19, 0xb7, 0x68, 0x8d, 0x60,
];

const END_SEAL: [u8; 32] = [
    0xe6, 0x17, 0xd7, 0xf5, 0x3f, 0xf6, 0x3b, 0x05, 0x83, 0x98, 0x3d, 0x29, 0x3b, 0x3b, 0x27, 0x40,
    0x02, 0x78, 0x78, 0x25, 0x6a, 0x82, 0xb6, 0x57, 0x2c, 0x2a, 0x7e, 0x1d, 0xfb, 0xe2, 0x22, 0xae,
];

const ABORT_SEAL: [u8; 32] = [
    0x37, 0x65, 0xd3, 0x39, 0x4c, 0x10, 0xf2, 0x61, 0xac, 0x49, 0x99, 0xa7, 0xf7, 0x6c, 0xf0, 0x27,
    0xb0, 0x62, 0x51, 0xb4, 0xe3, 0x0c, 0xa5, 0x54, 0x86, 0x01, 0x99, 0xec, 0xf5, 0xa1, 0x44, 0x5a,
];

// A header of version 2 and session 7.
fn head_of(kind: Kind, length: u32) -> Header {
    Header {
        version: 2,
        kind,
        session: 7,
        stream: 0,
        index: 0,
        length,
    }
}

#[test]
fn seals_are_those_of_another_program(rt: HostRuntime) {
    for (kind, payload, want) in [
        (Kind::Data, b"abc".as_slice(), DATA_SEAL),
        (Kind::End, b"".as_slice(), END_SEAL),
        (Kind::Abort, b"".as_slice(), ABORT_SEAL),
    ] {
        let length = if payload.is_empty() { 0 } else { 3 };
        assert_eq!(rt; seal(&encode_head(&head_of(kind, length)), payload), want);
    }
    for (version, len) in [(1, 0), (2, 32), (3, 0)] {
        assert_eq!(rt; seal_len(version), len);
    }
}

// The data packet with its seal, and seven bytes more.
fn sealed_bytes() -> [u8; 82] {
    let mut bytes = [9; 82];
    let head = encode_head(&head_of(Kind::Data, 3));
    for (b, h) in bytes.iter_mut().zip(head) {
        *b = h;
    }
    for (b, x) in bytes.iter_mut().skip(40).zip([b'a', b'b', b'c']) {
        *b = x;
    }
    for (b, x) in bytes.iter_mut().skip(43).zip(DATA_SEAL) {
        *b = x;
    }
    bytes
}

#[test]
fn a_sealed_packet_is_whole_from_the_last_byte_of_its_seal_on(rt: HostRuntime) {
    let bytes = sealed_bytes();
    let packet = Decoded::Packet {
        head: head_of(Kind::Data, 3),
        used: 75,
    };
    for (len, want) in [
        (0, Decoded::More),
        (39, Decoded::More),
        (43, Decoded::More),
        (74, Decoded::More),
        (75, packet),
        (82, packet),
    ] {
        assert_eq!(rt; decode(&bytes[..len], &EXPECT_SEALED), want, "{len} bytes");
    }
    assert_eq!(rt; packet_size(&head_of(Kind::Data, 3)), 75);
    // the same bytes are of no version 1
    assert_eq!(rt;
        decode(&bytes, &EXPECT),
        Decoded::Bad {
            cause: Cause::Version
        }
    );
}

#[test]
fn a_changed_byte_is_found_by_the_header_or_by_the_seal(rt: HostRuntime) {
    // a wrong header is found before the seal is looked at, and a changed index by the seal alone
    for (place, want) in [
        (0, Cause::Magic),
        (5, Cause::Version),
        (7, Cause::Kind),
        (15, Cause::Foreign),
        (23, Cause::Corrupt),
        (28, Cause::Spare),
        (40, Cause::Corrupt),
        (42, Cause::Corrupt),
        (43, Cause::Corrupt),
        (74, Cause::Corrupt),
    ] {
        let mut bytes = sealed_bytes();
        for (i, b) in bytes.iter_mut().enumerate() {
            if i == place {
                *b ^= 0x40;
            }
        }
        assert_eq!(rt;
            decode(&bytes, &EXPECT_SEALED),
            Decoded::Bad { cause: want },
            "byte {place}"
        );
    }
}

// A header and what follows it.
fn mark(kind: Kind, seal: &[u8; 32]) -> [u8; 72] {
    let mut bytes = [0; 72];
    for (b, h) in bytes.iter_mut().zip(encode_head(&head_of(kind, 0))) {
        *b = h;
    }
    for (b, x) in bytes.iter_mut().skip(40).zip(*seal) {
        *b = x;
    }
    bytes
}

// What stands at the start of the first bytes of a mark.
fn decode_part(bytes: &[u8; 72], len: usize) -> Decoded
    requires { len ≤ 72 }
{
    decode(&bytes[..len], &EXPECT_SEALED)
}

#[test]
fn marks_are_sealed_too(rt: HostRuntime) {
    for (kind, right, wrong) in [
        (Kind::End, END_SEAL, ABORT_SEAL),
        (Kind::Abort, ABORT_SEAL, END_SEAL),
    ] {
        let bytes = mark(kind, &right);
        assert_eq!(rt; decode_part(&bytes, 40), Decoded::More);
        assert_eq!(rt; decode_part(&bytes, 71), Decoded::More);
        let head = head_of(kind, 0);
        assert_eq!(rt;
            decode(&bytes, &EXPECT_SEALED),
            Decoded::Packet { head, used: 72 }
        );
        let corrupt = Decoded::Bad {
            cause: Cause::Corrupt,
        };
        assert_eq!(rt; decode(&mark(kind, &wrong), &EXPECT_SEALED), corrupt);
    }
}
