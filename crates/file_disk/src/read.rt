//! A part of a file's contents is read in two halves: stored blocks are copied, and then decrypted.
ghost use Rattle.std.specs.Prelude.{◌≡◌, ◌+◌, ◌*◌, ◌/◌, ◌%◌, ◌<◌, ◌≤◌, ◌^◌};
ghost use Rattle.std.specs.Prelude.{take, drop, length, IfOk, IfSome, IsSome};
ghost use Rattle.data_crypt.specs.Blocks.{wiped_seal};
ghost use Rattle.data_crypt.specs.Ciphers.{seal_by};
ghost use Rattle.data_crypt.specs.Laws.{IsKeyOfBytes};
ghost use Rattle.data_crypt.specs.Parts.{blocks_joined, content_of, opened_text};
ghost use Rattle.disk_tree.specs.DiskTree.{file_blocks, file_size};
ghost use Rattle.file_disk.specs.Keys.{pending_seal, seal_of};
ghost use Rattle.file_disk.specs.Pending.{IsAt, IsCopied, IsOfPart, IsPart, part_len, whole_size};

use crate::cipher_space::{cipher_space_of_pending, fill_pending, wipe_key, wipe_pending};
use crate::key::ContentsKey;
use crate::pending::PendingRead;
use byte_words::slice_is_bytes;
use data_crypt::{BLOCK_SIZE, FileCipher, read_block, wipe_cipher};
use disk_tree::DiskTree;
use mount_limits::MAX_READ_BYTES;
use std::alloc::{AllocError, Global};

/// Copies exactly the stored blocks that contain the part asked for, with the key that they are encrypted
/// with. Returns `None` exactly when the part is empty, and allocates nothing then. Decrypts nothing. Wipes
/// the key that is passed.
///
/// `len` is at most 4,096 bytes. The part ends with the file. A file that has no block for some of its
/// bytes is read as an empty one.
pub fn begin_read(
    disk: &DiskTree,
    alloc: Global,
    file: u32,
    key: &mut Option<ContentsKey>,
    offset: u32,
    len: u32,
) -> Result<Option<PendingRead>, AllocError>
    requires { len ≤ MAX_READ_BYTES }
    ensures past { whole_size disk.now file ≤ offset → result ≡ Ok None }
    ensures none { len ≡ 0 → result ≡ Ok None }
    ensures some { offset < whole_size disk.now file → 0 < len → IfOk result (λ lent. IsSome lent) }
    ensures size { IfOk result (λ lent. IfSome lent (λ read. read.len ≡ part_len disk.now file offset len)) }
    ensures place { IfOk result (λ lent. IfSome lent (IsAt offset)) }
    ensures only { IfOk result (λ lent. IfSome lent IsOfPart) }
    ensures text { IfOk result (λ lent. IfSome lent (IsCopied disk.now file)) }
    ensures key { IfOk result (λ lent. IfSome lent (λ read. pending_seal read.key ≡ seal_of key.old)) }
    ensures content { IfOk result (IsPart disk.now file (seal_of key.old) offset len) }
    ensures wiped { seal_of key.new ≡ wiped_seal (seal_of key.old) }
{
    let begun = copy_part(disk, alloc, file, key, offset, len);
    wipe_key(key);
    begun
}

// Copies the part and the key.
fn copy_part(
    disk: &DiskTree,
    alloc: Global,
    file: u32,
    key: &Option<ContentsKey>,
    offset: u32,
    len: u32,
) -> Result<Option<PendingRead>, AllocError>
    requires { len ≤ MAX_READ_BYTES }
    ensures past { whole_size disk.now file ≤ offset → result ≡ Ok None }
    ensures none { len ≡ 0 → result ≡ Ok None }
    ensures some { offset < whole_size disk.now file → 0 < len → IfOk result (λ lent. IsSome lent) }
    ensures size { IfOk result (λ lent. IfSome lent (λ read. read.len ≡ part_len disk.now file offset len)) }
    ensures place { IfOk result (λ lent. IfSome lent (IsAt offset)) }
    ensures only { IfOk result (λ lent. IfSome lent IsOfPart) }
    ensures text { IfOk result (λ lent. IfSome lent (IsCopied disk.now file)) }
    ensures key { IfOk result (λ lent. IfSome lent (λ read. pending_seal read.key ≡ seal_of key.now)) }
    ensures content { IfOk result (IsPart disk.now file (seal_of key.now) offset len) }
{
    let size = whole_size(disk, file);
    if offset >= size || len == 0 {
        return Ok(None);
    }
    let block = offset / BLOCK_SIZE as u32;
    let skip = offset % BLOCK_SIZE as u32;
    let len = len.min(size - offset);
    let count = (skip + len).div_ceil(BLOCK_SIZE as u32);
    let text = copy_blocks(disk, alloc, file, block, count)?;
    let key = copy_key(alloc, key)?;
    Ok(Some(PendingRead {
        key,
        block,
        text,
        skip,
        len,
    }))
}

/// Decrypts the text in place and cuts it to the content, which it returns. Allocates nothing. Wipes the
/// key in its box, and its round keys in their buffer.
pub fn finish_read(lent: PendingRead) -> Vec<u8>
    ensures { result.items ≡ content_of
        (pending_seal lent.key) lent.block lent.text.items lent.skip lent.len }
{
    let PendingRead {
        mut key,
        block,
        mut text,
        skip,
        len,
    } = lent;
    let mut cipher = cipher_space_of_pending(&key);
    fill_pending(&mut cipher, &key);
    wipe_pending(&mut key);
    open_text(&cipher, block, text.as_mut_slice());
    wipe_cipher(&mut cipher);
    cut(&mut text, skip as usize, len as usize);
    text
}

// Returns the size of the file, or 0 if it has too few blocks for it.
fn whole_size(disk: &DiskTree, file: u32) -> u32
    ensures { result ≡ whole_size disk.now file }
{
    let size = disk.file_size(file);
    if size as usize <= disk.block_count(file).saturating_mul(BLOCK_SIZE) {
        size
    } else {
        0
    }
}

// Returns `count` stored blocks of the file from block `from` on, side by side.
fn copy_blocks(
    disk: &DiskTree,
    alloc: Global,
    file: u32,
    from: u32,
    count: u32,
) -> Result<Vec<u8>, AllocError>
    requires there { from + count ≤ length (file_blocks disk.now file) }
    requires near { from + count ≤ 2 ^ 20 }
    ensures copied { IfOk result (λ text. text.items ≡ blocks_joined (file_blocks disk.now file) from count) }
    ensures size { IfOk result (λ text. length text.items ≡ BLOCK_SIZE * count) }
{
    let mut text = Vec::new(alloc);
    'each: for i in 0..count {
        text.extend_from_slice(disk.block(file, from + i))?;
    }
    Ok(text)
}

// Returns a copy of the key in a box. The box is allocated before the bytes are copied into it.
fn copy_key(
    alloc: Global,
    key: &Option<ContentsKey>,
) -> Result<Option<Box<ContentsKey>>, AllocError>
    ensures same { IfOk result (λ copy. pending_seal copy ≡ seal_of key.now) }
    ensures ranged { IsKeyOfBytes (seal_of key.now) }
{
    match key {
        Some(key) => {
            slice_is_bytes(key.bytes.as_slice());
            let mut copy = boxed_zeros(alloc, key)?;
            copy.bytes = key.bytes;
            Ok(Some(copy))
        }
        None => Ok(None),
    }
}

// Returns zeros in place of the key, with its start and unit.
fn boxed_zeros(alloc: Global, key: &ContentsKey) -> Result<Box<ContentsKey>, AllocError>
    ensures start { IfOk result (λ boxed. boxed.value.start ≡ key.now.start) }
    ensures unit { IfOk result (λ boxed. boxed.value.unit ≡ key.now.unit) }
{
    let zeros = ContentsKey {
        bytes: [0; 64],
        start: key.start,
        unit: key.unit,
    };
    match Box::new(alloc, zeros) {
        Ok(boxed) => Ok(boxed),
        Err(_) => Err(AllocError),
    }
}

// Decrypts each block of the text; the first is block `first` of the file.
fn open_text(cipher: &Option<FileCipher>, first: u32, text: &mut [u8])
    requires near { first + length text.old / BLOCK_SIZE ≤ 2 ^ 20 }
    requires whole_blocks { length text.old % BLOCK_SIZE ≡ 0 }
    ensures { text.new ≡ opened_text (seal_by cipher.now) first text.old }
{
    'each: for i in 0..text.len() / BLOCK_SIZE {
        read_block(
            cipher,
            first + i as u32,
            &mut text[BLOCK_SIZE * i..BLOCK_SIZE * i + BLOCK_SIZE],
        );
    }
}

// Leaves `len` bytes from byte `skip` on.
fn cut(text: &mut Vec<u8>, skip: usize, len: usize)
    requires { skip + len ≤ length text.old.items }
    ensures { text.new.items ≡ take len (drop skip text.old.items) }
{
    text.copy_within(skip..skip + len, 0);
    text.truncate(len);
}
