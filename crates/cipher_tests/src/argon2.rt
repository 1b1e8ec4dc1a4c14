//! Argon2id against its RFC and another implementation, and its lanes at once.

use crate::compared::same_bytes;
use argon_kdf::{
    CostFault, Costs, LaneStretch, PlainStretch, Stretch, Texts, argon2id, argon2id_lanes,
};
use std::alloc::{AllocError, Global};

// RFC 9106, section 5.3.
#[test]
fn argon2id_example(rt: HostRuntime) {
    let want: [u8; 32] = [
        0x0d, 0x64, 0x0d, 0xf5, 0x8d, 0x78, 0x76, 0x6c, 0x08, 0xc0, 0x37, 0xa3, 0x4a, 0x8b, 0x53,
        0xc9, 0xd0, 0x1e, 0xf0, 0x45, 0x2d, 0x75, 0xb6, 0x5e, 0xb5, 0x25, 0x20, 0xe9, 0x6b, 0x01,
        0xe6, 0x59,
    ];
    let costs = Costs {
        passes: 3,
        kib: 32,
        lanes: 4,
    };
    let texts = Texts {
        password: &[1; 32],
        salt: &[2; 16],
        secret: &[3; 8],
        extra: &[4; 12],
    };
    let mut tag = [0; 32];
    argon2id(rt.alloc(), &costs, texts, &mut tag).expect(&rt, "an answer");
    same_bytes(&rt, &tag, &want);
    let mut by_lanes = [0; 32];
    argon2id_lanes(&rt, rt.alloc(), &costs, texts, &mut by_lanes).expect(&rt, "an answer");
    same_bytes(&rt, &by_lanes, &want);
}

// No contract says that the threads run to their end.
#[test]
fn lanes_at_once_end_with_the_tag(rt: HostRuntime) {
    for lanes in 1..9 {
        for passes in [1, 3] {
            let costs = Costs {
                passes,
                kib: 8 * lanes,
                lanes,
            };
            let mut one = [0; 32];
            let mut other = [1; 32];
            let texts = Texts::without_secret(b"password", b"somesalt");
            argon2id(rt.alloc(), &costs, texts, &mut one).expect(&rt, "an answer");
            argon2id_lanes(&rt, rt.alloc(), &costs, texts, &mut other).expect(&rt, "an answer");
            assert!(rt; one == other, "{lanes} lanes, {passes} passes");
        }
    }
}

// Segments of 137 columns, which take two address blocks, and memory that is rounded down to whole
// segments. The tag is that of the program argon2 20171227.
const LONG_SEGMENTS: Costs = Costs {
    passes: 2,
    kib: 1100,
    lanes: 2,
};

const LONG_SEGMENTS_TAG: [u8; 32] = [
    0xf1, 0x70, 0xce, 0xce, 0x94, 0xbd, 0x1c, 0x6c, 0x66, 0x65, 0xf1, 0x1d, 0xd7, 0x55, 0x63, 0x42,
    0x3d, 0x04, 0x86, 0xa9, 0x38, 0xec, 0x38, 0x91, 0xdf, 0x54, 0xaf, 0x02, 0xe9, 0x6f, 0x19, 0xbb,
];

#[test]
fn segments_of_more_than_128_columns(rt: HostRuntime) {
    let mut tag = [0; 32];
    let texts = Texts::without_secret(b"password", b"somesaltsomesalt");
    argon2id(rt.alloc(), &LONG_SEGMENTS, texts, &mut tag).expect(&rt, "an answer");
    same_bytes(&rt, &tag, &LONG_SEGMENTS_TAG);
}

fn stretched_by<S: Stretch>(stretch: &S, alloc: Global) -> Result<[u8; 32], AllocError>
    requires { S.ready stretch.now }
{
    let mut tag = [0; 32];
    stretch.stretch(
        alloc,
        &LONG_SEGMENTS,
        b"password",
        b"somesaltsomesalt",
        &mut tag,
    )?;
    Ok(tag)
}

#[test]
fn stretches_with_and_without_threads(rt: HostRuntime) {
    let plain = stretched_by(&PlainStretch, rt.alloc()).expect(&rt, "an answer");
    same_bytes(&rt, &plain, &LONG_SEGMENTS_TAG);
    let by_lanes = stretched_by(&LaneStretch { threads: &rt }, rt.alloc());
    same_bytes(&rt, &by_lanes.expect(&rt, "an answer"), &LONG_SEGMENTS_TAG);
}

#[test]
fn costs_faults_in_order(rt: HostRuntime) {
    for (passes, kib, lanes, want) in [
        (0, 0, 0, Err(CostFault::Passes)),
        (1, 64, 9, Err(CostFault::Lanes)),
        (1, 15, 2, Err(CostFault::Kib)),
        (1, 16, 2, Ok(())),
        (16, 65_536, 8, Ok(())),
        (17, 65_536, 8, Err(CostFault::Passes)),
        (16, 65_537, 8, Err(CostFault::Kib)),
    ] {
        assert!(rt; Costs { passes, kib, lanes }.check() == want);
    }
}
