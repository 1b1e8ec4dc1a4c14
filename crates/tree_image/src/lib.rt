//! The image of a tree: the contents of a disk, written as a text.
#![tactic(auto)]

mod laws;
mod length;
mod order;
mod write;

pub use laws::images_agree;
pub use write::write_image;
