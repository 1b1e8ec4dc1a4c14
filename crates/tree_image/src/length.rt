//! The length of a disk's image, so that it is written into memory that is allocated once.

ghost use Rattle.std.specs.Prelude.{◌≡◌, ◌+◌, length, map, IfSome};
ghost use Rattle.hex.specs.Hex.{encode_lower};
ghost use Rattle.text_words.specs.Numbers.{decimal_of};
ghost use Rattle.image_lines.specs.ImageText.{block_line, body_lines, context_text, ended, entry_line, image_text};
ghost use Rattle.image_lines.specs.ImageText.{kind_of_body, kind_text, node_lines};
ghost use Rattle.tree_image.specs.Images.{image_node, image_of};
ghost use Rattle.tree_image.specs.Order.{in_order, body_in_order};

use disk_tree::{BlockList, Body, DirEntries, DiskTree, StoredNode};
use text_words::decimal_digits;

// Returns the length of the image of a disk in bytes; `None` if it is greater than the length of any
// text.
#[tactic(auto, using(crate::proofs::LengthLemmas::line_longer), unfolding(image_lines::specs::ImageText::image_text))]
pub(crate) fn image_len(disk: &DiskTree) -> Option<usize>
    ensures { IfSome result (λ len. len ≡ length (image_text (image_of disk.now))) }
{
    let mut len: usize = 12;
    'each: for (number, node) in disk.iter() {
        if node.named {
            len = len.checked_add(node_len(number, node)?)?;
        }
    }
    Some(len)
}

#[tactic(auto, using(crate::proofs::LengthLemmas::line_longer))]
fn node_len(number: u32, node: &StoredNode) -> Option<usize>
    ensures { IfSome result (λ len. len ≡ length (ended (node_lines (image_node (number, node.now))))) }
{
    let line = kind_len(&node.context, &node.body)?.checked_add(numeral_len(number))?;
    line.checked_add(7)?.checked_add(lines_len(&node.body)?)
}

fn numeral_len(number: u32) -> usize
    ensures { result ≡ length (decimal_of number) }
{
    decimal_digits(u64::from(number)).as_bytes().len()
}

// The length of the part of a node's line after its number, or `None`.
#[tactic(auto, using(crate::proofs::LengthLemmas::digits_are))]
fn kind_len(context: &Option<[u8; 40]>, body: &Body) -> Option<usize>
    ensures { IfSome result (λ len. len
        ≡ length (kind_text context.now (kind_of_body (body_in_order body.now)))) }
{
    let context = context_len(context)?;
    match body {
        Body::Dir(_) => context.checked_add(4),
        Body::File { blocks: _, size } => context.checked_add(6)?.checked_add(numeral_len(*size)),
        Body::Link(target) => context
            .checked_add(6)?
            .checked_add(digits_len(target.as_slice())?),
    }
}

#[tactic(auto, using(crate::proofs::LengthLemmas::digits_are))]
fn context_len(context: &Option<[u8; 40]>) -> Option<usize>
    ensures { IfSome result (λ len. len ≡ length (context_text context.now)) }
{
    match context {
        Some(bytes) => Some(digits_len(bytes)?),
        None => Some(1),
    }
}

// The length of the digits of bytes, or `None`.
#[tactic(auto, using(crate::proofs::LengthLemmas::digits_are))]
fn digits_len(bytes: &[u8]) -> Option<usize>
    ensures { IfSome result (λ len. len ≡ length (encode_lower bytes.now)) }
{
    bytes.len().checked_mul(2)
}

// The length of the lines after a node's own, or `None`.
fn lines_len(body: &Body) -> Option<usize>
    ensures { IfSome result (λ len. len ≡ length (ended (body_lines (body_in_order body.now)))) }
{
    match body {
        Body::Dir(entries) => entries_len(entries),
        Body::File { blocks, size: _ } => blocks_len(blocks),
        Body::Link(_) => Some(0),
    }
}

#[tactic(auto, using(crate::proofs::LengthLemmas::line_longer, crate::proofs::LengthLemmas::in_order_as_long))]
fn entries_len(entries: &DirEntries) -> Option<usize>
    ensures { IfSome result (λ len. len ≡ length (ended (map entry_line (in_order entries.now)))) }
{
    let mut len: usize = 0;
    'each: for entry in entries.iter() {
        len = len.checked_add(entry_len(entry.0.as_slice(), entry.1)?)?;
    }
    Some(len)
}

#[tactic(auto, using(crate::proofs::LengthLemmas::digits_are))]
fn entry_len(name: &[u8], child: u32) -> Option<usize>
    ensures { IfSome result (λ len. len ≡ length (entry_line (name.now, child)) + 1) }
{
    digits_len(name)?
        .checked_add(numeral_len(child))?
        .checked_add(8)
}

#[tactic(auto, using(crate::proofs::LengthLemmas::line_longer, crate::proofs::LengthLemmas::digits_are))]
fn blocks_len(blocks: &BlockList) -> Option<usize>
    ensures { IfSome result (λ len. len ≡ length (ended (map block_line blocks.now))) }
{
    let mut len: usize = 0;
    'each: for index in 0..blocks.len() {
        len = len
            .checked_add(digits_len(blocks.bytes(index))?)?
            .checked_add(7)?;
    }
    Some(len)
}
