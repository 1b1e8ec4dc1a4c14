//! A piece is written into a file's stored blocks.
ghost use Rattle.std.specs.Prelude.{◌≡◌, ◌+◌, ◌/◌, ◌<◌, ◌≤◌, ◌^◌, length, min, IfErr, IsOk, OnErr, OnOk};
ghost use Rattle.data_crypt.specs.Blocks.{wiped_seal};
ghost use Rattle.data_crypt.specs.Ciphers.{seal_by};
ghost use Rattle.disk_tree.specs.DiskTree.{IsFileAt, file_blocks};
ghost use Rattle.file_disk.specs.Bodies.{ExceedsDisk, blocks_rewritten, covers_block, disk_after_write, end_block};
ghost use Rattle.file_disk.specs.Bodies.{rewritten_block};
ghost use Rattle.file_disk.specs.Keys.{seal_of};

use crate::cipher_space::{cipher_space, fill, wipe_key};
use crate::key::ContentsKey;
use data_crypt::{BLOCK_SIZE, FileCipher, put_part, read_block, store_block, wipe_cipher};
use disk_tree::{DiskFault, DiskTree};
use mount_limits::MAX_FILE_BYTES;
use std::alloc::Global;

/// Writes the bytes into the file from byte `offset` on. A gap before them is zeros, encrypted like the
/// rest. Without bytes nothing changes. Only the blocks from the first that is touched or new on are
/// written.
///
/// Returns `NoSpace` if there are bytes and all files would have more than 16,384 blocks. After a fault the
/// disk is as before. A write that needs no new block allocates nothing. Wipes the key that is passed, and
/// its round keys in their buffer.
pub fn write_file(
    disk: &mut DiskTree,
    alloc: Global,
    file: u32,
    key: &mut Option<ContentsKey>,
    offset: u32,
    bytes: &[u8],
) -> Result<(), DiskFault>
    requires file { IsFileAt disk.old file }
    requires fits { offset + length bytes.now ≤ MAX_FILE_BYTES }
    ensures written { OnOk result
        (disk.new ≡ disk_after_write disk.old file (seal_of key.old) offset bytes.now) }
    ensures kept { OnErr result (disk.new ≡ disk.old) }
    ensures empty { length bytes.now ≡ 0 → IsOk result }
    ensures inside { end_block offset bytes.now ≤ length (file_blocks disk.old file) → IsOk result }
    ensures full { 0 < length bytes.now → ExceedsDisk disk.old file offset bytes.now
        → result ≡ Err DiskFault.NoSpace }
    ensures no_space { IfErr result (λ fault. fault ≡ DiskFault.NoSpace
        → ExceedsDisk disk.old file offset bytes.now) }
    ensures wiped { seal_of key.new ≡ wiped_seal (seal_of key.old) }
{
    let written = write_under(disk, alloc, file, key, offset, bytes);
    wipe_key(key);
    written
}

// Writes the bytes under the key.
fn write_under(
    disk: &mut DiskTree,
    alloc: Global,
    file: u32,
    key: &Option<ContentsKey>,
    offset: u32,
    bytes: &[u8],
) -> Result<(), DiskFault>
    requires file { IsFileAt disk.old file }
    requires fits { offset + length bytes.now ≤ MAX_FILE_BYTES }
    ensures written { OnOk result
        (disk.new ≡ disk_after_write disk.old file (seal_of key.now) offset bytes.now) }
    ensures kept { OnErr result (disk.new ≡ disk.old) }
    ensures empty { length bytes.now ≡ 0 → IsOk result }
    ensures inside { end_block offset bytes.now ≤ length (file_blocks disk.old file) → IsOk result }
    ensures full { 0 < length bytes.now → ExceedsDisk disk.old file offset bytes.now
        → result ≡ Err DiskFault.NoSpace }
    ensures no_space { IfErr result (λ fault. fault ≡ DiskFault.NoSpace
        → ExceedsDisk disk.old file offset bytes.now) }
{
    if bytes.is_empty() {
        return Ok(());
    }
    let had = disk.block_count(file);
    let size = offset + bytes.len() as u32;
    let end = size.div_ceil(BLOCK_SIZE as u32);
    match disk.grow(alloc, file, end) {
        Ok(()) => {
            let mut cipher = cipher_space(key);
            fill(&mut cipher, key);
            rewrite_blocks(disk, file, &cipher, had, end, offset, bytes);
            wipe_cipher(&mut cipher);
            let size = disk.file_size(file).max(size);
            disk.set_size(file, size);
            Ok(())
        }
        Err(fault) => Err(fault),
    }
}

// Stores each block before `end` again that is touched or new, with its part of the bytes. The file had
// `had` blocks that hold contents; those after them are plain zeros.
fn rewrite_blocks(
    disk: &mut DiskTree,
    file: u32,
    cipher: &Option<FileCipher>,
    had: usize,
    end: u32,
    offset: u32,
    bytes: &[u8],
)
    requires there { end ≤ length (file_blocks disk.old file) }
    requires near { end ≤ 2 ^ 20 }
    requires order { offset / BLOCK_SIZE ≤ end }
    ensures { disk.new ≡ blocks_rewritten disk.old file (seal_by cipher.now) had offset bytes.now
        (min had (offset / BLOCK_SIZE)) end }
{
    let first = had.min(offset as usize / BLOCK_SIZE) as u32;
    'each: for j in first..end {
        let block = disk.block_mut(file, j);
        rewrite_block(cipher, had, j, offset, bytes, block);
    }
}

// Stores block `index` again with its part of the bytes. If that part is the whole block, the old bytes
// make no difference, and are not read.
fn rewrite_block(
    cipher: &Option<FileCipher>,
    had: usize,
    index: u32,
    offset: u32,
    bytes: &[u8],
    block: &mut [u8],
)
    requires block_size { length block.old ≡ BLOCK_SIZE }
    requires near { index < 2 ^ 20 }
    ensures { block.new ≡ rewritten_block (seal_by cipher.now) had offset bytes.now index block.old }
{
    if (index as usize) < had && !covers_block(index, offset, bytes.len()) {
        read_block(cipher, index, block);
    }
    put_part(block, index, offset, bytes);
    store_block(cipher, index, block);
}

// Returns whether `len` bytes that are written from byte `offset` on cover all of block `index`.
fn covers_block(index: u32, offset: u32, len: usize) -> bool
    ensures { result ≡ covers_block offset len index }
{
    let begin = BLOCK_SIZE * index as usize;
    offset as usize <= begin && begin - offset as usize + BLOCK_SIZE <= len
}
