//! The listing of an image: what it shows of a tree to a reader with a raw key, and to one without a key.
#![tactic(auto)]

mod ciphers;
mod digest;
mod entries;
mod laws;
mod line;
mod list;
mod reader;
mod walk;
mod words;

pub use fsc_keys::PreparedKey;
pub use image_lines::Image;
pub use laws::listings_are_one;
pub use list::list_image;
