//! Links: records for protectors that are stored on another mount.

ghost use Rattle.std.specs.Prelude.{◌≡◌, ◌≤◌, IfOk, length};
ghost use Rattle.std.specs.Str.{bytes_eq};
ghost use Rattle.protector_meta.specs.LinkText.{link_text};

use item_list::Bytes;
use short_bytes::{Filled, Label};
use std::alloc::{AllocError, Global};

/// The maximal number of bytes of a link's text: 16 before the label, the label, and a line feed after
/// it.
pub const MAX_LINK_BYTES: usize = 49;

/// Returns the text of the link to the protector of this label: `fsc-link 1`, then `name ` and the label,
/// each line ended by a line feed. The text has at most 49 bytes. The only error is out of memory.
pub fn encode_link(alloc: Global, label: &Label) -> Result<Bytes, AllocError>
    ensures text { IfOk result (λ text. text ≡ link_text label.now) }
    ensures few { IfOk result (λ text. length text ≤ MAX_LINK_BYTES) }
{
    let link = link_to(label);
    Ok(Bytes::from_vec(Vec::from_slice(alloc, link.bytes())?))
}

/// Returns whether the bytes are exactly the text of the link to the protector of this label. Allocates
/// nothing.
pub fn is_link(label: &Label, bytes: &[u8]) -> bool
    ensures { result ≡ bytes_eq bytes.now (link_text label.now) }
{
    let link = link_to(label);
    bytes == link.bytes()
}

// The text of the link, without an allocation.
#[tactic(auto, unfolding(crate::specs::LinkText::link_text))]
fn link_to(label: &Label) -> Filled<MAX_LINK_BYTES>
    ensures { result ≡ link_text label.now }
{
    let mut link = Filled::of(b"fsc-link 1\nname ");
    link.append(label.bytes());
    link.append(b"\n");
    link
}
