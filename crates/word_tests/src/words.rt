//! Words of 64 bits as bytes, short bytes, labels and digits.

use byte_words::{read_word, write_words, xor_into};
use short_bytes::{Filled, Label};
use std::alloc::AllocError;
use std::hash::{DefaultHasher, Hash, Hasher};
use text_words::{hex_bytes, lower_hex_bytes, push_decimal, push_lower_hex};

#[test]
fn words_have_the_low_byte_first(rt: HostRuntime) {
    let mut bytes = [0; 16];
    write_words(&[0x0807_0605_0403_0201, u64::MAX], &mut bytes);
    let mut want = [
        1, 2, 3, 4, 5, 6, 7, 8, 255, 255, 255, 255, 255, 255, 255, 255,
    ];
    assert!(rt; bytes == want);
    assert!(rt; read_word(&want, 0) == 0x0807_0605_0403_0201);

    xor_into(&mut want, &bytes);
    assert!(rt; want == [0; 16]);
}

/// Returns the hash under which a map would look the value up.
fn hash_of<T: Hash>(value: &T) -> u64 {
    let mut hasher = DefaultHasher::new();
    value.hash(&mut hasher);
    hasher.finish()
}

#[test]
fn bytes_are_compared_and_hashed_as_they_are_seen(rt: HostRuntime) {
    let mut grown = Filled::<4>::new();
    grown.append(b"ab");
    grown.append(b"cd");
    let whole = Filled::<4>::of(b"abcd");
    assert!(rt; grown == whole);
    assert!(rt; hash_of(&grown) == hash_of(&whole));
    assert!(rt; Filled::<4>::read(b"abcd") == Some(whole));
    assert!(rt; Filled::<4>::read(b"abcde") == None);

    grown.wipe();
    assert!(rt; grown == Filled::of(&[0; 4]));
    assert!(rt; grown.len() == 4);
    assert!(rt; grown != Filled::of(&[0; 3]));
}

#[test]
fn labels_have_characters_and_bounds(rt: HostRuntime) {
    let label = Label::read(b"login-2_b").expect(&rt, "a label");
    assert!(rt; label.bytes() == b"login-2_b".as_slice());
    let letters = [b'z'; 33];
    for (bytes, is_label) in [
        (&letters[..32], true),
        (&letters, false),
        (b"", false),
        (b"Login", false),
        (b"a.b", false),
    ] {
        assert!(rt; Label::read(bytes).is_some() == is_label);
    }
}

/// Appends numbers with a space after each, and then bytes in hex, to the text.
fn push_digits(text: &mut Vec<u8>) -> Result<(), AllocError> {
    push_decimal(text, 0)?;
    text.push(b' ')?;
    push_decimal(text, u64::MAX)?;
    text.push(b' ')?;
    push_lower_hex(text, &[0, 0x0f, 0xa5, 0xff])?;
    push_lower_hex(text, &[])
}

#[test]
fn digits_stand_behind_the_text(rt: HostRuntime) {
    let mut text = Vec::from_slice(rt.alloc(), b"users=").expect(&rt, "memory");
    push_digits(&mut text).expect(&rt, "memory");
    assert!(rt; text.as_slice() == b"users=0 18446744073709551615 000fa5ff".as_slice());
}

#[test]
fn digits_of_just_so_many_bytes_are_read(rt: HostRuntime) {
    assert!(rt; hex_bytes(b"0Fa5") == Some([0x0f, 0xa5]));
    assert!(rt; lower_hex_bytes(b"0fa5") == Some([0x0f, 0xa5]));
    assert!(rt; lower_hex_bytes::<2>(b"0Fa5") == None);
    assert!(rt; hex_bytes::<2>(b"0fa5f") == None);
    assert!(rt; hex_bytes::<2>(b"0fa5ff") == None);
}
