//! Policies and contexts in bytes.

use policy_ctx::{
    CONTEXT_LEN, Context, CtxFault, KeyId, POLICY_LEN, Pad, Policy, Unit, decode_context,
    decode_policy, encode_context, encode_policy, id_in, is_by_mode,
};

/// The identifier 00, 01, .. 0f.
const COUNTING: [u8; 16] = [0, 1, 2, 3, 4, 5, 6, 7, 8, 9, 10, 11, 12, 13, 14, 15];

/// The policy with padding 32 and the counting identifier, as Linux writes it.
const PADDED_TO_32: [u8; POLICY_LEN] = [
    2, 1, 4, 3, 0, 0, 0, 0, 0, 1, 2, 3, 4, 5, 6, 7, 8, 9, 10, 11, 12, 13, 14, 15,
];

fn policy_padded_to_32() -> Policy {
    Policy {
        pad: Pad::P32,
        unit: Unit::Block,
        by_mode: false,
        id: KeyId(COUNTING),
    }
}

#[test]
fn policy_bytes_and_first_faults(rt: HostRuntime) {
    assert!(rt; encode_policy(&policy_padded_to_32()) == PADDED_TO_32);
    assert!(rt; decode_policy(&PADDED_TO_32) == Ok(policy_padded_to_32()));

    for (place, byte, fault) in [
        (0, 1, CtxFault::Version),
        (1, 4, CtxFault::Modes),
        (2, 1, CtxFault::Modes),
        (3, 7, CtxFault::Flags),
        (4, 13, CtxFault::Unit),
        (5, 1, CtxFault::Reserved),
        (7, 128, CtxFault::Reserved),
    ] {
        let mut bytes = PADDED_TO_32;
        bytes[place] = byte;
        assert!(rt;
            decode_policy(&bytes) == Err(fault),
            "byte {place} set to {byte}"
        );
    }
    assert!(rt; decode_policy(&PADDED_TO_32[..23]) == Err(CtxFault::Length));
}

#[test]
fn other_flags_and_units_are_refused(rt: HostRuntime) {
    for flags in [4, 7, 12, 16, 255] {
        let mut bytes = PADDED_TO_32;
        bytes[3] = flags;
        assert!(rt; decode_policy(&bytes) == Err(CtxFault::Flags), "{flags}");
    }
    for log in [1, 8, 13, 255] {
        let mut bytes = PADDED_TO_32;
        bytes[4] = log;
        assert!(rt; decode_policy(&bytes) == Err(CtxFault::Unit), "{log}");
    }
}

// Flags and units that a Linux 6.12 kernel takes, and what it takes them for.
#[test]
fn units_and_flag_8_are_those_of_linux(rt: HostRuntime) {
    for (flags, log, by_mode, unit) in [
        (3, 9, false, Unit::U512),
        (3, 10, false, Unit::U1024),
        (3, 11, false, Unit::U2048),
        (3, 12, false, Unit::U4096),
        (8, 0, true, Unit::Block),
        (11, 0, true, Unit::Block),
    ] {
        let mut bytes = PADDED_TO_32;
        bytes[3] = flags;
        bytes[4] = log;
        let policy = Policy {
            pad: if flags == 8 { Pad::P4 } else { Pad::P32 },
            unit,
            by_mode,
            id: KeyId(COUNTING),
        };
        assert!(rt; decode_policy(&bytes) == Ok(policy), "{flags} and {log}");
        assert!(rt; encode_policy(&policy) == bytes, "{flags} and {log}");
    }
}

#[test]
fn context_bytes_have_the_nonce_behind(rt: HostRuntime) {
    let context = Context {
        policy: policy_padded_to_32(),
        nonce: [0xee; 16],
    };
    let mut bytes = [0xee; CONTEXT_LEN];
    bytes[..POLICY_LEN].copy_from_slice(&PADDED_TO_32);
    assert!(rt; encode_context(&context) == bytes);
    assert!(rt; decode_context(&bytes) == Ok(context));
    assert!(rt; id_in(&bytes) == KeyId(COUNTING));
    assert!(rt; !is_by_mode(&bytes));
    bytes[3] = 11;
    assert!(rt; is_by_mode(&bytes));
    assert!(rt; decode_context(&PADDED_TO_32) == Err(CtxFault::Length));
}
