//! Why a line of a text that is no image is at fault. No byte of the text is printed.

use crate::help::remark;
use crate::image_words::{cause_of_entry_words, cause_of_node_words};
use image_lines::{EntryLine, NodeKind, NodeLine, read_entry_line, read_node_line};
use mount_limits::BLOCK_SIZE;
use name_crypt::MIN_STORED_BYTES;
use text_words::{is_lower_hex, may_be_part, next_line, nth_word, rest_after};

const PAGE: &str = "docs/FORMATS.md has the lines of an image, under Images";

const BLOCK_MISSING: &str = "a block of the file before it is missing";

// What is known of the lines before a line, as far as it determines which line may follow.
#[derive(Clone, Copy)]
struct Before {
    // The last line of a node, and its number.
    node: Option<NodeLine>,
    number: u32,
    // The last entry after that line.
    entry: Option<EntryLine>,
    // The number of blocks after that line.
    blocks: u32,
}

impl Before {
    // Adds the next line.
    fn pass(&mut self, line: &[u8]) {
        if let Some(node) = read_node_line(line) {
            self.number = node.number;
            self.node = Some(node);
            self.entry = None;
            self.blocks = 0;
        } else if let Some(entry) = read_entry_line(line) {
            self.entry = Some(entry);
        } else {
            self.blocks = self.blocks.saturating_add(1);
        }
    }

    // Returns whether a block of the last node is still missing.
    fn lacks_block(&self) -> bool {
        match self.node {
            Some(
                NodeLine {
                    kind: NodeKind::File { size },
                    ..
                },
            ) => { self.blocks < size.div_ceil(BLOCK_SIZE as u32) }
            _ => false,
        }
    }
}

/// Prints on standard error why the line of this number is at fault in a text that is no image, and the page
/// on images. If the text wasn't stored, or no cause is found, only the page is printed.
pub(crate) fn show_image_line(rt: &HostRuntime, text: Option<&[u8]>, number: u32) {
    match text.and_then(|text| cause_of_line(text, number)) {
        Some(cause) => {
            let _ = eprintln!(rt; "fsc: line {number}: {cause}; {PAGE}");
        }
        None => remark(rt, PAGE),
    }
}

// Returns why the line of this number is at fault.
fn cause_of_line(text: &[u8], number: u32) -> Option<&'static str> {
    let mut before = Before {
        node: None,
        number: 0,
        entry: None,
        blocks: 0,
    };
    let mut rest = text;
    for _ in 1..number {
        let line = next_line(rest);
        before.pass(line.bytes);
        rest = line.rest;
    }
    let line = next_line(rest);
    if rest.is_empty() {
        return cause_of_end(number, &before);
    }
    if !line.ended {
        return Some("no line feed ends the line");
    }
    match number {
        _ if line.bytes.ends_with(b"\r") => Some("the line has a carriage return"),
        1 => Some(cause_of_first(line.bytes)),
        2 => Some("the second line is not node 0 dir -"),
        _ => cause_in_words(text, line.bytes, &before),
    }
}

// Returns why a text may not end before the line of this number.
fn cause_of_end(number: u32, before: &Before) -> Option<&'static str> {
    match number {
        1 => Some("the image is empty"),
        2 => Some("the image ends before the root's line"),
        _ if before.lacks_block() => Some("the image ends before the last block of a file"),
        _ => None,
    }
}

// Returns why a line is not the first of an image.
fn cause_of_first(line: &[u8]) -> &'static str {
    if line.starts_with(b"\xef\xbb\xbf") {
        "the image begins with a byte order mark"
    } else if line.starts_with(b"fsc-image ") {
        "the version of the image is not 1"
    } else {
        "the first line is not fsc-image 1"
    }
}

// Returns why a line after the root's is at fault.
fn cause_in_words(text: &[u8], line: &[u8], before: &Before) -> Option<&'static str> {
    let name = nth_word(line, 0)?;
    if name == b"node".as_slice() {
        cause_of_node(line, before)
    } else if name == b"entry".as_slice() {
        cause_of_entry(text, line, before)
    } else if name == b"block".as_slice() {
        cause_of_block(line, before)
    } else if line.is_empty() {
        Some("the line is empty")
    } else {
        Some("the line's first word is not node, entry or block")
    }
}

// Returns why the line of a node is at fault.
fn cause_of_node(line: &[u8], before: &Before) -> Option<&'static str> {
    if before.lacks_block() {
        return Some(BLOCK_MISSING);
    }
    let Some(number) = node_number(line) else {
        return cause_of_node_words(line);
    };
    if number <= before.number {
        return Some("the node's number is not greater than the one of the node before it");
    }
    None
}

// Returns the number of the node of this line, if it is a node's.
fn node_number(line: &[u8]) -> Option<u32> {
    match read_node_line(line) {
        Some(node) => Some(node.number),
        None => None,
    }
}

// Returns why the line of an entry is at fault.
fn cause_of_entry(text: &[u8], line: &[u8], before: &Before) -> Option<&'static str> {
    let node = before.node?;
    if !matches!(node.kind, NodeKind::Dir) {
        return Some("an entry comes after a file or a symlink; only a directory has entries");
    }
    let Some(entry) = read_entry_line(line) else {
        return cause_of_entry_words(line);
    };
    let name = entry.name.bytes();
    if node.context.is_some() {
        if name.len() < MIN_STORED_BYTES {
            return Some("the name has fewer than 16 bytes, and its directory has a policy");
        }
    } else if !may_be_part(name) {
        return Some("the name is no part of a path, and its directory has no policy");
    }
    match before.entry {
        Some(last) if !last.name.bytes().cmp(name).is_lt() => Some(
            "the name is not after the one of the entry before it",
        ),
        _ => cause_of_child(text, entry.child),
    }
}

// Returns why no entry, or not this one, may resolve to the node of this number.
fn cause_of_child(text: &[u8], child: u32) -> Option<&'static str> {
    if child == 0 {
        return Some("the entry resolves to the root");
    }
    let mut rest = text;
    for _ in 0..u64::MAX {
        if rest.is_empty() {
            break;
        }
        let line = next_line(rest);
        if node_number(line.bytes) == Some(child) {
            return Some("an entry before it resolves to the same node");
        }
        rest = line.rest;
    }
    Some("the entry resolves to no node of the image")
}

// Returns why the line of a block is at fault.
fn cause_of_block(line: &[u8], before: &Before) -> Option<&'static str> {
    if !matches!(before.node?.kind, NodeKind::File { .. }) {
        return Some("a block comes after a directory or a symlink; only a file has blocks");
    }
    if !before.lacks_block() {
        return Some("the file before it has more blocks than its size needs");
    }
    match rest_after(line, b"block ") {
        Some(digits) if is_lower_hex(digits, BLOCK_SIZE) => None,
        _ => Some("a block is not 8192 lower-case hexadecimal digits"),
    }
}
