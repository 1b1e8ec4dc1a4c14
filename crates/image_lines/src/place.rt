//! Where a line of an image is, and which lines are allowed there.

ghost use Rattle.std.specs.Prelude.{◌≡◌, ◌≤◌};
ghost use Rattle.image_lines.specs.declared.place.Place.TheVariants.{AtHeader, AtRoot};
ghost use Rattle.image_lines.specs.NodeRules as rules;
ghost use Rattle.image_lines.specs.NodeLines as nodes;
ghost use Rattle.image_lines.specs.NextPlaces as places;
ghost use Rattle.image_lines.specs.LineFaults as spec;
ghost use Rattle.image_lines.specs.NextPlaces.{step};

use crate::lines::{is_block_line, read_entry_line, read_node_line};
use crate::node_line::{NodeKind, NodeLine, StoredBytes};
use crate::rules::is_entry_name;
use mount_limits::BLOCK_SIZE;

/// The first line of every image.
pub(crate) const HEADER: &[u8] = b"fsc-image 1";

/// Where a line of an image is, as far as it determines which lines are allowed.
#[derive(Clone, Copy)]
pub(crate) enum Place {
    /// Before all lines.
    AtHeader,
    /// After the header.
    AtRoot,
    /// After the line of a directory, or after one of its entries. The last name is empty before the first
    /// entry.
    InDir {
        number: u32,
        under_policy: bool,
        last: StoredBytes,
    },
    /// After a file, with `left` blocks still to come, or after a link.
    Behind {
        number: u32,
        left: u32,
    },
}

impl Place {
    // Returns the place after the line, or `None` if the line isn't allowed at this one.
    pub(crate) fn next(&self, line: &[u8]) -> Option<Place>
        ensures { result ≡ step self.now line.now }
    {
        match self {
            Place::AtHeader => at_header(line),
            Place::AtRoot => at_root(line),
            Place::InDir {
                number,
                under_policy,
                last,
            } => match read_entry_line(line) {
                Some(entry) => next_entry(*number, *under_policy, last, &entry.name),
                None => next_node(*number, line),
            },
            Place::Behind { number, left: 0 } => next_node(*number, line),
            Place::Behind { number, left } => next_block(*number, *left, line),
        }
    }

    // Returns whether an image may end here.
    pub(crate) fn may_end(&self) -> bool
        ensures { result ≡ spec.may_end self.now }
    {
        matches!(self, Place::InDir { .. } | Place::Behind { left: 0, .. })
    }
}

fn at_header(line: &[u8]) -> Option<Place>
    ensures { result ≡ step AtHeader line.now }
{
    if line == HEADER {
        Some(Place::AtRoot)
    } else {
        None
    }
}

// The root: node 0, a directory without context.
fn at_root(line: &[u8]) -> Option<Place>
    ensures { result ≡ step AtRoot line.now }
{
    match read_node_line(line)? {
        NodeLine {
            number: 0,
            context: None,
            kind: NodeKind::Dir,
        } => Some(Place::InDir {
            number: 0,
            under_policy: false,
            last: StoredBytes::new(),
        }),
        _ => None,
    }
}

// Returns the place after the line of a node of a greater number.
fn next_node(number: u32, line: &[u8]) -> Option<Place>
    ensures { result ≡ nodes.next_node number line.now }
{
    let NodeLine {
        number: next,
        context,
        kind,
    } = read_node_line(line)?;
    if number < next {
        Some(place_after(next, context.is_some(), kind))
    } else {
        None
    }
}

// Returns the place after an entry, if its name is in range and greater than the last one.
fn next_entry(
    number: u32,
    under_policy: bool,
    last: &StoredBytes,
    name: &StoredBytes,
) -> Option<Place>
    ensures { result ≡ places.next_entry number under_policy last.now name.now }
{
    if is_entry_name(under_policy, name.bytes()) && last.bytes().cmp(name.bytes()).is_lt() {
        Some(Place::InDir {
            number,
            under_policy,
            last: *name,
        })
    } else {
        None
    }
}

// Returns the place after a block, of which `left` are still to come.
fn next_block(number: u32, left: u32, line: &[u8]) -> Option<Place>
    requires { 1 ≤ left }
    ensures { result ≡ places.next_block number left line.now }
{
    if !is_block_line(line) {
        return None;
    }
    Some(Place::Behind {
        number,
        left: left - 1,
    })
}

// Returns the place after the line of a node.
fn place_after(number: u32, under_policy: bool, kind: NodeKind) -> Place
    ensures { result ≡ nodes.place_after number under_policy kind }
{
    match kind {
        NodeKind::Dir => Place::InDir {
            number,
            under_policy,
            last: StoredBytes::new(),
        },
        NodeKind::File { size } => Place::Behind {
            number,
            left: blocks_for(size),
        },
        NodeKind::Link(_) => Place::Behind { number, left: 0 },
    }
}

// Returns how many blocks a file of that many bytes has.
fn blocks_for(size: u32) -> u32
    ensures { result ≡ rules.blocks_for size }
{
    size.div_ceil(BLOCK_SIZE as u32)
}
