//! Stored names and no-key names.
ghost use Rattle.std.specs.Prelude.{◌≡◌, ◌<◌, ◌≤◌};
ghost use Rattle.name_crypt.specs.Plain.{IsPlain};

use crate::linux::expect_nokey;
use name_crypt::{
    Aes256, MAX_NAME_BYTES, NameCipher, Plain, PlainFault, Steps, StoredLength, StoredName,
    decrypt_name, encrypt_into, encrypt_name, is_plain, nokey_matches, nokey_text,
};
use policy_ctx::Pad;
use std::marker::Brand;
use std::sync::ledger::{Blank, Ledger};

const KEY: [u8; 32] = [7; 32];

/// The stored name under the key of these tests, counted on a ledger of its own.
fn stored_once<L: Ledger>(blank: Blank, pad: Pad, name: &Plain) -> StoredName
    requires name { blank.name ≡ L.name }
    requires parts { blank.parts ≡ L.parts }
    requires some { 0 < L.parts }
{
    let mut steps = Steps::<L>::new(blank);
    encrypt_name(&KEY, [0; 16], pad, name, &mut steps)
}

#[test]
fn stored_name_lengths_and_round_trip(rt: HostRuntime) {
    let letters = [b'a'; 255];
    for (len, pad, want) in [
        (1, Pad::P32, 32),
        (16, Pad::P32, 32),
        (17, Pad::P32, 32),
        (33, Pad::P32, 64),
        (255, Pad::P32, 255),
        (17, Pad::P4, 20),
        (17, Pad::P8, 24),
        (249, Pad::P8, 255),
    ] {
        let name = Plain::read(&letters[..len]).expect(&rt, "an answer");
        let stored = stored_once::<Brand>(Blank::new(1), pad, &name);
        assert!(rt; stored.bytes().len() == want, "a name of {len} bytes");
        assert!(rt;
            decrypt_name(&KEY, [0; 16], &stored) == Ok(name),
            "a name of {len} bytes"
        );
        assert!(rt;
            NameCipher::new(&KEY, 0).decrypt(&stored) == Ok(name),
            "a name of {len} bytes"
        );
    }
}

/// The stored name under the key of these tests from a start, counted on a ledger of its own.
fn stored_from<L: Ledger>(blank: Blank, start: u64, name: &Plain) -> StoredName
    requires name { blank.name ≡ L.name }
    requires parts { blank.parts ≡ L.parts }
    requires some { 0 < L.parts }
{
    let mut steps = Steps::<L>::new(blank);
    NameCipher::new(&KEY, start).encrypt(Pad::P4, name, &mut steps)
}

/// A name, and what is stored of it under the key of these tests from the start 0.
const NAME: [u8; 32] = *b"a name of thirty-two bytes, this";

const WITHOUT_START: [u8; 32] = [
    0xd2, 0x8a, 0xd1, 0xc8, 0xdd, 0x43, 0x79, 0x59, 0xd7, 0x37, 0x9e, 0x87, 0x8c, 0xf5, 0x68, 0x99,
    0xe2, 0x6a, 0xf8, 0x5f, 0x44, 0xa1, 0xe9, 0xc7, 0x71, 0x27, 0xba, 0xaf, 0x45, 0xad, 0x71, 0x9e,
];

// The two blocks are those of `openssl enc -aes-256-cbc`, swapped, with the start of node 12 in the
// iv and without.
#[test]
fn start_of_a_node_is_in_the_iv(rt: HostRuntime) {
    let name = Plain::read(&NAME).expect(&rt, "an answer");
    let stored = [
        (
            12 << 32,
            [
                0x5e, 0x64, 0x5e, 0x78, 0xbb, 0xf4, 0x3f, 0x98, 0x00, 0xae, 0x08, 0x1b, 0xb6, 0x90,
                0x86, 0xa8, 0x90, 0xa8, 0x49, 0xf3, 0x07, 0xa0, 0x51, 0xea, 0x4d, 0xe0, 0x32, 0x56,
                0x0d, 0x56, 0x1b, 0xeb,
            ],
        ),
        (0, WITHOUT_START),
    ];
    for (start, want) in stored {
        let found = stored_from::<Brand>(Blank::new(1), start, &name);
        assert!(rt; found.bytes() == want.as_slice(), "start {start}");
        assert!(rt;
            NameCipher::new(&KEY, start).decrypt(&found) == Ok(name),
            "start {start}"
        );
    }
}

/// The stored name under the key of these tests, written over zeros, and its length.
fn written<L: Ledger>(blank: Blank, name: &[u8]) -> ([u8; MAX_NAME_BYTES], usize)
    requires name { blank.name ≡ L.name }
    requires parts { blank.parts ≡ L.parts }
    requires some { 0 < L.parts }
    requires plain { IsPlain name.now }
    ensures bound { result.1 ≤ MAX_NAME_BYTES }
{
    let mut steps = Steps::<L>::new(blank);
    let key = Aes256::new(&KEY);
    let mut text = [0; MAX_NAME_BYTES];
    let len = encrypt_into(&key, [0; 16], Pad::P4, name, &mut text, &mut steps);
    (text, len)
}

#[test]
fn a_name_is_written_over_zeros(rt: HostRuntime) {
    assert!(rt; is_plain(&NAME));
    assert!(rt; !is_plain(b"a\0b"));
    let (text, len) = written::<Brand>(Blank::new(1), &NAME);
    assert!(rt; &text[..len] == WITHOUT_START.as_slice());
}

#[test]
fn names_and_stored_names_have_bounds(rt: HostRuntime) {
    let zeros = [0; 256];
    assert!(rt; Plain::read(&zeros) == Err(PlainFault::Length));
    assert!(rt; Plain::read(&zeros[..1]) == Err(PlainFault::Nul));
    assert!(rt; StoredName::read(&zeros[..15]) == Err(StoredLength));
    assert!(rt; StoredName::read(&zeros[..255]).is_ok());
}

#[test]
fn nokey_texts_by_length(rt: HostRuntime) {
    let counting = [0, 1, 2, 3, 4, 5, 6, 7, 8, 9, 10, 11, 12, 13, 14, 15];
    for (bytes, text) in [
        (counting, "AAAAAAAAAAAAAQIDBAUGBwgJCgsMDQ4P"),
        ([0xff; 16], "AAAAAAAAAAD_____________________"),
    ] {
        let stored = StoredName::read(&bytes).expect(&rt, "an answer");
        expect_nokey(&rt, &stored, text);
    }

    let bytes = [1; 200];
    for (len, characters) in [(149, 210), (150, 252), (200, 252)] {
        let stored = StoredName::read(&bytes[..len]).expect(&rt, "an answer");
        let text = nokey_text(&stored);
        assert!(rt;
            text.bytes().len() == characters,
            "a stored name of {len} bytes"
        );
        assert!(rt;
            nokey_matches(text.bytes(), &stored),
            "a stored name of {len} bytes"
        );
    }
}

#[test]
fn a_nokey_text_is_not_that_of_a_name_with_another_end(rt: HostRuntime) {
    let mut bytes = [1; 200];
    let one = StoredName::read(&bytes).expect(&rt, "an answer");
    bytes[199] = 2;
    let other = StoredName::read(&bytes).expect(&rt, "an answer");
    assert!(rt; !nokey_matches(nokey_text(&one).bytes(), &other));
}
