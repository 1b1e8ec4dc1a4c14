//! The image of a disk, as its text.

ghost use Rattle.std.specs.Prelude.{◌≡◌, ◌++◌, [], ◌∷◌, IfOk, OnOk, map};
ghost use Rattle.std.specs.List.{flat_map};
ghost use Rattle.image_lines.specs.ImageText.{block_line, body_lines, context_text, ended, entry_line, image_text};
ghost use Rattle.image_lines.specs.ImageText.{kind_of_body, kind_text, node_lines};
ghost use Rattle.tree_image.specs.Images.{image_node, image_of};
ghost use Rattle.tree_image.specs.Order.{body_in_order};

use crate::length::image_len;
use crate::order::entries_in_order;
use disk_tree::{BlockList, Body, DiskTree, StoredNode};
use item_list::Bytes;
use std::alloc::{AllocError, Global};
use text_words::{push_decimal, push_lower_hex};

/// Writes the image of a disk: the header, then the root and each node that has a name, by rising number.
/// Each has its line, and after it a line for each entry or block. Returns `AllocError` if it is out of
/// memory.
pub fn write_image(alloc: Global, disk: &DiskTree) -> Result<Bytes, AllocError>
    ensures { IfOk result (λ text. text ≡ image_text (image_of disk.now)) }
{
    let Some(len) = image_len(disk) else {
        return Err(AllocError);
    };
    let mut text = Vec::with_capacity(alloc, len)?;
    text.extend_from_slice(b"fsc-image 1\n")?;
    push_nodes(alloc, &mut text, disk)?;
    Ok(Bytes::from_vec(text))
}

// Writes the nodes that have a name.
fn push_nodes(alloc: Global, text: &mut Vec<u8>, disk: &DiskTree) -> Result<(), AllocError>
    ensures { OnOk result (text.new.items
        ≡ text.old.items ++ ended (flat_map node_lines (image_of disk.now))) }
{
    'each: for (number, node) in disk.iter() {
        if node.named {
            push_node(alloc, text, number, node)?;
        }
    }
    Ok(())
}

// Writes a node: its line, and the lines of its body after it.
fn push_node(
    alloc: Global,
    text: &mut Vec<u8>,
    number: u32,
    node: &StoredNode,
) -> Result<(), AllocError>
    ensures { OnOk result (text.new.items
        ≡ text.old.items ++ ended (node_lines (image_node (number, node.now)))) }
{
    text.extend_from_slice(b"node ")?;
    push_decimal(text, u64::from(number))?;
    text.push(b' ')?;
    push_kind(text, &node.context, &node.body)?;
    text.push(b'\n')?;
    push_lines(alloc, text, &node.body)?;
    Ok(())
}

// Writes the part of a node's line after its number.
fn push_kind(text: &mut Vec<u8>, context: &Option<[u8; 40]>, body: &Body) -> Result<(), AllocError>
    ensures { OnOk result (text.new.items
        ≡ text.old.items ++ kind_text context.now (kind_of_body (body_in_order body.now))) }
{
    match body {
        Body::Dir(_) => {
            text.extend_from_slice(b"dir ")?;
            push_context(text, context)?;
        }
        Body::File { blocks: _, size } => {
            text.extend_from_slice(b"file ")?;
            push_context(text, context)?;
            text.push(b' ')?;
            push_decimal(text, u64::from(*size))?;
        }
        Body::Link(target) => {
            text.extend_from_slice(b"link ")?;
            push_context(text, context)?;
            text.push(b' ')?;
            push_lower_hex(text, target.as_slice())?;
        }
    }
    Ok(())
}

// Writes the digits of a context, or `-` if there is none.
fn push_context(text: &mut Vec<u8>, context: &Option<[u8; 40]>) -> Result<(), AllocError>
    ensures { OnOk result (text.new.items ≡ text.old.items ++ context_text context.now) }
{
    match context {
        Some(bytes) => push_lower_hex(text, bytes)?,
        None => text.push(b'-')?,
    }
    Ok(())
}

// Writes a line for each entry or block.
fn push_lines(alloc: Global, text: &mut Vec<u8>, body: &Body) -> Result<(), AllocError>
    ensures { OnOk result (text.new.items ≡ text.old.items ++ ended (body_lines (body_in_order body.now))) }
{
    match body {
        Body::Dir(entries) => {
            let sorted = entries_in_order(alloc, entries)?;
            push_entries(text, &sorted)?;
        }
        Body::File { blocks, size: _ } => push_blocks(text, blocks)?,
        Body::Link(_) => (),
    }
    Ok(())
}

fn push_entries(text: &mut Vec<u8>, entries: &[&(Bytes, u32)]) -> Result<(), AllocError>
    ensures { OnOk result (text.new.items
        ≡ text.old.items ++ ended (map entry_line (map (λ e. e.now) entries.now))) }
{
    'each: for entry in entries {
        push_entry(text, entry.0.as_slice(), entry.1)?;
    }
    Ok(())
}

fn push_entry(text: &mut Vec<u8>, name: &[u8], child: u32) -> Result<(), AllocError>
    ensures { OnOk result (text.new.items ≡ text.old.items ++ (entry_line (name.now, child) ++ 10 ∷ [])) }
{
    text.extend_from_slice(b"entry ")?;
    push_decimal(text, u64::from(child))?;
    text.push(b' ')?;
    push_lower_hex(text, name)?;
    text.push(b'\n')?;
    Ok(())
}

fn push_blocks(text: &mut Vec<u8>, blocks: &BlockList) -> Result<(), AllocError>
    ensures { OnOk result (text.new.items ≡ text.old.items ++ ended (map block_line blocks.now)) }
{
    'each: for index in 0..blocks.len() {
        push_block(text, blocks.bytes(index))?;
    }
    Ok(())
}

fn push_block(text: &mut Vec<u8>, block: &[u8]) -> Result<(), AllocError>
    ensures { OnOk result (text.new.items ≡ text.old.items ++ (block_line block.now ++ 10 ∷ [])) }
{
    text.extend_from_slice(b"block ")?;
    push_lower_hex(text, block)?;
    text.push(b'\n')?;
    Ok(())
}
