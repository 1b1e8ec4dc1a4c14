//! XTS-AES-256 on the units of its standard.

use crate::counted::counted;
use xts_mode::XtsKey;

// The key of IEEE 1619, annex B, vectors 10 to 14.
const STANDARD_KEY: [u8; 64] = *b"\x27\x18\x28\x18\x28\x45\x90\x45\x23\x53\x60\x28\x74\x71\x35\x26\
      \x62\x49\x77\x57\x24\x70\x93\x69\x99\x59\x57\x49\x66\x96\x76\x27\
      \x31\x41\x59\x26\x53\x58\x97\x93\x23\x84\x62\x64\x33\x83\x27\x95\
      \x02\x88\x41\x97\x16\x93\x99\x37\x51\x05\x82\x09\x74\x94\x45\x92";

// An index, and the first and the last block of a unit of that index.
type UnitRow = (u64, &'static [u8], &'static [u8]);

// The keys, indexes and units of IEEE 1619, annex B, vectors 10 to 14: 512 bytes that count up, at five
// indexes. Each row has the first and the last block of the ciphertext, for both directions. The
// ciphertexts are those that another implementation, Python's `cryptography`, makes of these.
static UNITS: [UnitRow; 5] = [
    (
        0xff,
        b"\x1c\x3b\x3a\x10\x2f\x77\x03\x86\xe4\x83\x6c\x99\xe3\x70\xcf\x9b",
        b"\xc4\xf3\x6f\xfd\xa9\xfc\xea\x70\xb9\xc6\xe6\x93\xe1\x48\xc1\x51",
    ),
    (
        0xffff,
        b"\x77\xa3\x12\x51\x61\x8a\x15\xe6\xb9\x2d\x1d\x66\xdf\xfe\x7b\x50",
        b"\xa4\xf9\xe2\x7b\x42\xaf\x81\x00\xcb\x9d\x59\xce\xf9\x64\x58\x03",
    ),
    (
        0xffffff,
        b"\xe3\x87\xaa\xa5\x8b\xa4\x83\xaf\xa7\xe8\xeb\x46\x97\x78\x31\x7e",
        b"\x22\x63\xa1\xee\xf5\x2d\xd6\x88\x8c\x30\x9f\x5a\x7d\x71\x28\x26",
    ),
    (
        0xffff_ffff,
        b"\xbf\x53\xd2\xda\xde\x78\xe8\x22\xa4\xd9\x49\xa9\xbc\x67\x66\xb0",
        b"\x4c\x82\xf3\x35\xab\xb1\x52\xc4\xa9\x34\x11\x37\x3a\xaa\x82\x20",
    ),
    (
        0xff_ffff_ffff,
        b"\x64\x49\x7e\x5a\x83\x1e\x4a\x93\x2c\x09\xbe\x3e\x53\x93\x37\x6d",
        b"\xd6\x09\xd2\x73\xad\x5b\x0d\x59\x63\x1c\x53\x1f\x6a\x0a\x57\xb9",
    ),
];

#[test]
fn standard_units_encrypt_and_decrypt(rt: HostRuntime) {
    let plain = counted::<512>();
    let xts = XtsKey::new(&STANDARD_KEY);
    for (index, first, last) in &UNITS {
        assert!(rt;
            is_made_so(&xts, &plain, *index, (first, last)),
            "index {index}"
        );
    }
}

// Whether the unit is encrypted to one with this beginning and end, and back.
fn is_made_so(xts: &XtsKey, plain: &[u8; 512], index: u64, (first, last): (&[u8], &[u8])) -> bool {
    let mut unit = *plain;
    xts.encrypt_unit(index, &mut unit);
    let is_encrypted = unit.starts_with(first) && unit.ends_with(last);
    xts.decrypt_unit(index, &mut unit);
    is_encrypted && unit == *plain
}

// FNV-1a, 64 bits.
fn checksum(bytes: &[u8]) -> u64 {
    let mut sum = 0xcbf29ce484222325u64;
    for byte in bytes {
        sum = (sum ^ *byte as u64).wrapping_mul(0x100000001b3);
    }
    sum
}

// A unit of 4,096 bytes that count up, whose ciphertext by Python's `cryptography` has this checksum;
// and units that are its beginning, whose ciphertexts are the beginning of that one.
#[test]
fn units_of_every_length_encrypt_and_decrypt(rt: HostRuntime) {
    let plain = counted::<4096>();
    let xts = XtsKey::new(&STANDARD_KEY);
    let mut whole = plain;
    xts.encrypt_unit(0xff, &mut whole);
    assert!(rt; checksum(&whole) == 0xc9337eef5f7a3a4e);
    for blocks in 1..256 {
        assert!(rt;
            is_made_alone(&xts, blocks, &plain, &whole),
            "{blocks} blocks"
        );
    }
}

// Whether the first `blocks` blocks, at most 256, are encrypted to the beginning of `whole`, and back,
// and the rest is unchanged.
fn is_made_alone(xts: &XtsKey, blocks: usize, plain: &[u8; 4096], whole: &[u8; 4096]) -> bool {
    if blocks > 256 {
        return false;
    }
    let mut unit = *plain;
    let (front, back) = unit.split_at_mut(16 * blocks);
    xts.encrypt_unit(0xff, front);
    let is_encrypted = whole.starts_with(front) && plain.ends_with(back);
    xts.decrypt_unit(0xff, front);
    is_encrypted && unit == *plain
}
