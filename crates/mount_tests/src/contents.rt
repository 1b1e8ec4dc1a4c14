//! Files in blocks, as Linux stores them.
ghost use Rattle.std.specs.Prelude.{◌≡◌, ◌%◌, ◌^◌};

use crate::disk_steps::file;
use file_disk::{ContentsKey, DiskTree, PendingRead, Unit, begin_read, finish_read, write_file};
use sha2::{Digest, Sha256};
use std::alloc::{AllocError, Global};
use std::process::Abort;

// Files of 9,192 bytes that Linux 6.12 stored in units of 512 bytes, with the SHA-256 of their first
// two blocks: under a key of the file's own, and under a mode key as inode 116. Byte q is
// (131 q + 29 (q / 256) + 1) modulo 256. HKDF-SHA512 makes the keys of the master key 00 to 3f, the
// nonce ec675c89bde4a3d29efbc8d8305eef99 and the filesystem's UUID fsc-memory-mount.
const OWN_KEY: &str = "edc43bbd4aa562bd040ff10bd6f2d1cc0a1883baa8464e9ea8d4ab9d08c09914\
     48da82f949d80c64c166d5610e8bf072d9641b1fb51c7d1c6ebebfd958b2affc";

const MODE_KEY: &str = "9c621e403c192295d98e7fc9eedc07eecb1381239e734a752102ce4617295eaf\
     0cc48e789014e0bae5a67af6097aac1beaa57fcd07cccbfd8247b9e90d2b515b";

const OWN_BLOCKS: [&str; 2] = [
    "e92b5cec4dd44473982420ef375a96a83a280a7aca624787bca199a9fc06a3d6",
    "2d222f41dbfe2bc1c771134bc90455d64b6b4b1ded3234fe79bf47bb7505ddc1",
];

const MODE_BLOCKS: [&str; 2] = [
    "9d2a840add58767cac9621a569edc84887cf27c1269432b507f75a9cfd0fff1d",
    "137dd371f4402d6c17a71427a35df315daf63a2b04b83aec219326897aec0d49",
];

fn contents() -> [u8; 9192] {
    let mut contents = [0u8; 9192];
    for (place, byte) in contents.iter_mut().enumerate() {
        let sum = place.wrapping_mul(131).wrapping_add(place / 256 * 29);
        *byte = (sum.wrapping_add(1) % 256) as u8;
    }
    contents
}

// A key as its digits, and the index at which the units of a file start.
#[derive(Clone, Copy)]
struct KeyText {
    digits: &'static str,
    start: u64,
    pub ghost apart: { start % 2 ^ 32 ≡ 0 },
}

const OWN: KeyText = KeyText {
    digits: OWN_KEY,
    start: 0,
};

const MODE: KeyText = KeyText {
    digits: MODE_KEY,
    start: 116 << 32,
};

// The key; each call that takes a key wipes it.
fn key_of(text: Option<KeyText>) -> Option<ContentsKey> {
    let text = text?;
    let mut bytes = [0; 64];
    hex::decode_to_slice(text.digits, &mut bytes).ok()?;
    Some(ContentsKey {
        bytes,
        start: text.start,
        unit: Unit::U512,
    })
}

// Writes file 1.
fn write<R: Abort>(
    rt: &R,
    disk: &mut DiskTree,
    alloc: Global,
    key: Option<KeyText>,
    offset: u32,
    bytes: &[u8],
) {
    assert!(rt; disk.is_file(1) && offset <= 500_000 && bytes.len() <= 500_000);
    let mut key = key_of(key);
    let written = write_file(disk, alloc, 1, &mut key, offset, bytes);
    assert!(rt; written == Ok(()), "a piece at {offset}");
}

// Writes the file in odd pieces: after a gap first, then across borders of blocks and units. A last piece
// covers block 1, and replaces other bytes there.
fn write_in_pieces<R: Abort>(rt: &R, disk: &mut DiskTree, alloc: Global, key: Option<KeyText>) {
    let contents = contents();
    for (from, to) in [
        (5000, 9192),
        (0, 1),
        (4095, 4097),
        (1, 4095),
        (4097, 5000),
        (700, 700),
    ] {
        let piece = contents.get(from as usize..to).expect(rt, "a piece");
        write(rt, disk, alloc, key, from, piece);
    }
    write(rt, disk, alloc, key, 4000, &[0x5a; 4192]);
    write(rt, disk, alloc, key, 4000, &contents[4000..8192]);
}

// A disk with that file alone.
fn written_in_pieces<R: Abort>(rt: &R, alloc: Global, key: Option<KeyText>) -> DiskTree {
    let mut disk = DiskTree::new(alloc).expect(rt, "memory");
    assert!(rt; disk.node(1).is_none() && disk.add_node(1, file(alloc)) == Ok(()));
    write_in_pieces(rt, &mut disk, alloc, key);
    disk
}

#[test]
fn a_file_written_in_pieces_is_stored_as_linux_stores_it(rt: HostRuntime) {
    for (key, blocks) in [(OWN, OWN_BLOCKS), (MODE, MODE_BLOCKS)] {
        assert!(rt; key_of(Some(key)).is_some());
        let disk = written_in_pieces(&rt, rt.alloc(), Some(key));
        expect_blocks(&rt, &disk, rt.alloc(), blocks);
    }
}

// Asserts that the file has three blocks, of which the first two have these digests.
fn expect_blocks<R: Abort>(rt: &R, disk: &DiskTree, alloc: Global, blocks: [&str; 2]) {
    assert!(rt; disk.file_size(1) == 9192 && disk.block_count(1) == 3);
    for (index, sha256) in [(0, blocks[0]), (1, blocks[1])] {
        assert!(rt;
            has_digest(disk, alloc, index, sha256) == Ok(true),
            "block {index}"
        );
    }
}

// Whether the file has this block, and the block this digest.
fn has_digest(
    disk: &DiskTree,
    alloc: Global,
    index: u32,
    sha256: &str,
) -> Result<bool, AllocError> {
    if index as usize >= disk.block_count(1) {
        return Ok(false);
    }
    let digest = Sha256::digest(disk.block(1, index));
    let digits = hex::encode(alloc, digest.as_slice())?;
    Ok(digits.as_str() == sha256)
}

#[test]
fn a_read_gives_what_was_written(rt: HostRuntime) {
    for key in [Some(OWN), Some(MODE), None] {
        let disk = written_in_pieces(&rt, rt.alloc(), key);
        read_in_parts(&rt, &disk, rt.alloc(), key);
    }
}

fn read_in_parts<R: Abort>(rt: &R, disk: &DiskTree, alloc: Global, key: Option<KeyText>) {
    let contents = contents();
    for (offset, len, end) in [
        (0, 4096, 4096),
        (4090, 20, 4110),
        (2048, 4096, 6144),
        (9000, 4096, 9192),
    ] {
        let wanted = contents.get(offset as usize..end).expect(rt, "a part");
        read(rt, disk, alloc, key, (offset, len), Some(wanted));
    }
    // at the file's end, and if no byte is requested
    read(rt, disk, alloc, key, (9192, 1), None);
    read(rt, disk, alloc, key, (0, 0), None);
}

// Asserts that a read of `len` bytes at `offset` returns the expected bytes, or none.
fn read<R: Abort>(
    rt: &R,
    disk: &DiskTree,
    alloc: Global,
    key: Option<KeyText>,
    (offset, len): (u32, u32),
    wanted: Option<&[u8]>,
) {
    assert!(rt; len <= 4096);
    let mut key = key_of(key);
    let lent = begin_read(disk, alloc, 1, &mut key, offset, len).expect(rt, "memory");
    assert!(rt; is_read(lent, wanted), "{len} bytes at {offset}");
}

fn is_read(lent: Option<PendingRead>, wanted: Option<&[u8]>) -> bool {
    match (lent, wanted) {
        (Some(lent), Some(wanted)) => finish_read(lent).as_slice() == wanted,
        (None, None) => true,
        _ => false,
    }
}
