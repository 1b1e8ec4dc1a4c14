//! The nodes that entries reach from the root, and the entry by which each is reached.

ghost use Rattle.std.specs.Prelude.{◌≡◌, ◌<◌, [], ◌∷◌, true, IfOk, OnOk};
ghost use Rattle.text_words.specs.Lines.{pieces_of};
ghost use Rattle.image_lines.specs.ImageText.{image_text};
ghost use Rattle.image_lines.specs.Nodes.{IsRestOf};
ghost use Rattle.image_lines.specs.WordForms.{entries_at};
ghost use Rattle.tree_listing.specs.Walk.{AreFound, GoesOn, HasEntries, IsFollowed, IsWalk, is_among};
ghost use Rattle.tree_listing.specs.Ways.{AreWaysToReached, IsEntryTo};

use crate::entries::first_entry;
use image_lines::{Image, NodeKind};
use std::alloc::{AllocError, Global};

/// How a node was found.
#[derive(Clone, Copy)]
pub(crate) enum Way {
    /// The node was not found.
    Nowhere,
    /// The node is the root.
    AtRoot,
    /// By the entry whose line begins at this index of the text, in the directory of this number.
    By { parent: u32, at: u32 },
}

/// A way for each node, and the numbers of those that were found, in the order in which they were.
#[derive(Drop)]
pub(crate) struct Walk {
    pub ways: Vec<Way>,
    pub order: Vec<u32>,
}

// Returns the ways to all nodes that are reached. Each is followed in its turn, without recursion.
pub(crate) fn ways_to_reached(alloc: Global, image: &Image<'_>) -> Result<Vec<Way>, AllocError>
    ensures { IfOk result (λ ways. AreWaysToReached image.now ways.items) }
{
    // The clause `image` of `text` holds: the nodes are an image.
    let _text = image.text();
    let mut walk = begin(alloc, image)?;
    let mut next = 0;
    'each: while next < walk.order.len() {
        let number = walk.order[next];
        follow(image, &mut walk, number)?;
        next += 1;
    }
    let Walk { ways, order: _ } = walk;
    Ok(ways)
}

// The root is found.
fn begin(alloc: Global, image: &Image<'_>) -> Result<Walk, AllocError>
    ensures walk { IfOk result (IsWalk image.now) }
    ensures root { IfOk result (λ walk. walk.order.items ≡ 0 ∷ []) }
{
    // The clause `image` of `text` holds: the nodes are an image.
    let _text = image.text();
    let count = image.node_count();
    let mut ways = vec![in alloc; Way::Nowhere; count]?;
    let mut order = Vec::with_capacity(alloc, count)?;
    ways[0] = Way::AtRoot;
    order.push(0)?;
    Ok(Walk { ways, order })
}

// Finds the children of the entries of a node that was found.
fn follow(image: &Image<'_>, walk: &mut Walk, number: u32) -> Result<(), AllocError>
    requires walk { IsWalk image.now walk.old }
    requires found { is_among walk.old.order.items number ≡ true }
    ensures walk { OnOk result (IsWalk image.now walk.new) }
    ensures goes_on { OnOk result (GoesOn walk.old walk.new) }
    ensures followed { OnOk result (IsFollowed image.now walk.new.order.items number) }
{
    // The clause `image` of `text` holds: the nodes are an image.
    let _text = image.text();
    let Some(index) = image.index_of(number) else {
        unreachable!();
    };
    let node = image.node(index);
    match &node.line.kind {
        NodeKind::Dir => follow_entries(image, walk, number, node.rest),
        NodeKind::File { .. } | NodeKind::Link(_) => Ok(()),
    }
}

// Finds the children of a directory's entries, whose lines are the first of `lines`.
fn follow_entries(
    image: &Image<'_>,
    walk: &mut Walk,
    number: u32,
    lines: &[u8],
) -> Result<(), AllocError>
    requires walk { IsWalk image.now walk.old }
    requires found { is_among walk.old.order.items number ≡ true }
    requires own { HasEntries image.now number (entries_at (pieces_of lines.now)) }
    requires end { IsRestOf (image_text image.now) lines.now }
    ensures walk { OnOk result (IsWalk image.now walk.new) }
    ensures goes_on { OnOk result (GoesOn walk.old walk.new) }
    ensures found { OnOk result (AreFound walk.new.order.items (entries_at (pieces_of lines.now))) }
{
    let text = image.text();
    let mut rest = lines;
    'entries: while let Some(first) = first_entry(rest) {
        let at = (text.len() - rest.len()) as u32;
        lead_to(image, walk, number, at, first.entry.child)?;
        rest = first.rest;
    }
    Ok(())
}

// Finds the child of an entry, by the directory's number and the index of the entry's line.
fn lead_to(
    image: &Image<'_>,
    walk: &mut Walk,
    parent: u32,
    at: u32,
    child: u32,
) -> Result<(), AllocError>
    requires walk { IsWalk image.now walk.old }
    requires found { is_among walk.old.order.items parent ≡ true }
    requires led { IsEntryTo image.now child parent at }
    ensures walk { OnOk result (IsWalk image.now walk.new) }
    ensures goes_on { OnOk result (GoesOn walk.old walk.new) }
    ensures found { OnOk result (is_among walk.new.order.items child ≡ true) }
{
    // The clause `image` of `text` holds: the nodes are an image.
    let _text = image.text();
    let Some(index) = image.index_of(child) else {
        unreachable!();
    };
    if let Way::Nowhere = walk.ways[index] {
        walk.ways[index] = Way::By { parent, at };
        walk.order.push(child)?;
    }
    Ok(())
}
