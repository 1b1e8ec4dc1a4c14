//! The line of a node.

ghost use Rattle.std.specs.Prelude.{◌≡◌, ◌++◌, ◌∷◌, [], true, Option, OnOk};
ghost use Rattle.std.specs.Option.{option_map};
ghost use Rattle.std.specs.Prelude.{Contains};
ghost use Rattle.text_words.specs.Numbers.{decimal_of};
ghost use Rattle.image_lines.specs.Image.{ImageNode};
ghost use Rattle.image_lines.specs.ImageText.{image_text};
ghost use Rattle.image_lines.specs.Nodes.{node_in};
ghost use Rattle.image_lines.specs.NodeRules.{IsNode};
ghost use Rattle.tree_listing.specs.Listing.{visible_body, listed, visible_place};
ghost use Rattle.tree_listing.specs.PlacedEntries.{entry_to};
ghost use Rattle.tree_listing.specs.ListingText.{body_text, digest_text, line_text, place_text};
ghost use Rattle.tree_listing.specs.Ways as spec;
ghost use Rattle.tree_listing.specs.Ways.{IsWayTo};

use crate::digest::digest_shown;
use crate::entries::entry_count;
use crate::reader::Reader;
use crate::walk::Way;
use crate::words::push_visible_name;
use image_lines::{EntryLine, Image, NodeKind, NodeText, read_entry_line};
use policy_ctx::CONTEXT_LEN;
use script_words::push_number;
use std::alloc::{AllocError, Global};
use text_words::{next_line, push_decimal, push_lower_hex};

// Writes the line of a node that was found.
pub(crate) fn push_line(
    alloc: Global,
    text: &mut Vec<u8>,
    image: &Image<'_>,
    reader: &Option<Reader<'_>>,
    node: &NodeText<'_>,
    way: Way,
) -> Result<(), AllocError>
    requires node { IsNode (node_in node.now) }
    requires way { IsWayTo image.now true node.now.line.number way }
    ensures { OnOk result (text.new.items
        ≡ text.old.items ++ (line_text (listed reader.now image.now (node_in node.now)) ++ 10 ∷ [])) }
{
    push_place(alloc, text, image, reader, node.line.number, way)?;
    push_body(alloc, text, reader, node)?;
    text.push(b'\n')?;
    Ok(())
}

// Writes a node's number, its parent's, and its name.
fn push_place(
    alloc: Global,
    text: &mut Vec<u8>,
    image: &Image<'_>,
    reader: &Option<Reader<'_>>,
    number: u32,
    way: Way,
) -> Result<(), AllocError>
    requires { IsWayTo image.now true number way }
    ensures { OnOk result (text.new.items ≡ text.old.items
        ++ (decimal_of number
        ++ 32 ∷ place_text (option_map (visible_place reader.now) (entry_to image.now number)))) }
{
    // The clause `image` of `text` holds: the nodes are an image.
    let _text = image.text();
    push_decimal(text, u64::from(number))?;
    match way {
        Way::Nowhere => unreachable!(),
        Way::AtRoot => text.extend_from_slice(b" - /"),
        Way::By { parent, at } => {
            push_number(text, parent)?;
            let Some(entry) = entry_at(image, at) else {
                unreachable!();
            };
            push_visible_name(
                alloc,
                text,
                reader,
                parent,
                &context_of(image, parent),
                &entry.name,
            )
        }
    }
}

// The context of the node of this number.
fn context_of(image: &Image<'_>, number: u32) -> Option<[u8; CONTEXT_LEN]>
    ensures { (node : ImageNode) → Contains image.now node → node.number ≡ number → result ≡ node.context }
{
    // The clause `image` of `text` holds: the nodes are an image.
    let _text = image.text();
    match image.index_of(number) {
        Some(index) => image.node(index).line.context,
        None => None,
    }
}

// The entry of the line that begins at this index of the text.
fn entry_at(image: &Image<'_>, at: u32) -> Option<EntryLine>
    ensures { option_map (λ entry. (entry.name, entry.child)) result
        ≡ spec.entry_at (image_text image.now) at }
{
    match image.text().get(at as usize..) {
        Some(rest) => read_entry_line(next_line(rest).bytes),
        None => None,
    }
}

// Writes a space, the kind of a node, and the values of its body.
fn push_body(
    alloc: Global,
    text: &mut Vec<u8>,
    reader: &Option<Reader<'_>>,
    node: &NodeText<'_>,
) -> Result<(), AllocError>
    requires { IsNode (node_in node.now) }
    ensures { OnOk result (text.new.items ≡ text.old.items
        ++ 32 ∷ body_text (visible_body reader.now node.now.line.number node.now.line.context
        (node_in node.now).body)) }
{
    match &node.line.kind {
        NodeKind::Dir => {
            text.extend_from_slice(b" dir ")?;
            push_decimal(text, entry_count(node.rest) as u64)
        }
        NodeKind::File { size } => {
            text.extend_from_slice(b" file")?;
            push_number(text, *size)?;
            text.push(b' ')?;
            let digest = digest_shown(
                reader,
                node.line.number,
                &node.line.context,
                *size,
                node.rest,
            );
            push_digest(text, &digest)
        }
        NodeKind::Link(target) => {
            text.extend_from_slice(b" link")?;
            push_visible_name(
                alloc,
                text,
                reader,
                node.line.number,
                &node.line.context,
                target,
            )
        }
    }
}

// Writes the digits of a digest, or `-` if there is none.
fn push_digest(text: &mut Vec<u8>, digest: &Option<[u8; 32]>) -> Result<(), AllocError>
    ensures { OnOk result (text.new.items ≡ text.old.items ++ digest_text digest.now) }
{
    match digest {
        Some(bytes) => push_lower_hex(text, bytes),
        None => text.extend_from_slice(b"-"),
    }
}
