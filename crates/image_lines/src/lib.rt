//! The image of a tree as text, read: exactly the texts that are an image, and else the line at fault.
#![tactic(auto)]

mod fault;
mod image;
mod laws;
mod lines;
mod node_line;
mod place;
mod round_of_children;
mod round_of_lines;
mod rules;
mod words;

pub use fault::ImageFault;
pub use image::{Image, NodeText, read_image};
pub use laws::images_are_texts;
pub use lines::{read_block_line, read_entry_line, read_node_line};
pub use node_line::{EntryLine, NodeKind, NodeLine, StoredBytes};

/// The maximum number of bytes of a text that is read as an image. The image of a mount has at most
/// 209,108,476, by the law `mount_images_are_short` of `listing_laws`.
pub const MAX_IMAGE_BYTES: usize = 268_435_456;
