//! The lines of an image, read one by one.

ghost use Rattle.std.specs.Prelude.{◌≡◌, Option, is_some};
ghost use Rattle.std.specs.Option.{option_map};
ghost use Rattle.image_lines.specs.Lines.{node_of_line, entry_of_line, block_of_line};

use crate::node_line::{EntryLine, NodeLine};
use crate::words::{entry_of_words, node_of_words};
use mount_limits::BLOCK_SIZE;
use text_words::{is_lower_hex, lower_hex_bytes, rest_after};

/// Returns the content of a node's line, or `None` if it isn't one.
#[tactic(auto, unfolding(crate::specs::Lines::node_of_line))]
pub fn read_node_line(line: &[u8]) -> Option<NodeLine>
    ensures { result ≡ node_of_line line.now }
{
    node_of_words(rest_after(line, b"node ")?)
}

/// Returns the content of an entry's line, or `None` if it isn't one.
#[tactic(auto, unfolding(crate::specs::Lines::entry_of_line))]
pub fn read_entry_line(line: &[u8]) -> Option<EntryLine>
    ensures { option_map (λ entry. (entry.name, entry.child)) result ≡ entry_of_line line.now }
{
    entry_of_words(rest_after(line, b"entry ")?)
}

/// Returns the bytes of a block's line, or `None` if it isn't one.
#[tactic(auto, unfolding(crate::specs::Lines::block_of_line))]
pub fn read_block_line(line: &[u8]) -> Option<[u8; BLOCK_SIZE]>
    ensures { result ≡ block_of_line line.now }
{
    lower_hex_bytes(rest_after(line, b"block ")?)
}

// Returns whether `read_block_line` returns a block for the line. The digits are tested and not decoded.
#[tactic(auto, unfolding(crate::specs::Lines::block_of_line))]
pub(crate) fn is_block_line(line: &[u8]) -> bool
    ensures { result ≡ is_some (block_of_line line.now) }
{
    match rest_after(line, b"block ") {
        Some(digits) => is_lower_hex(digits, BLOCK_SIZE),
        None => false,
    }
}
