//! Laws of a mount's image: it is an image, and shows with a key and without one what the mount shows.
#![tactic(auto)]

mod laws;
mod nonces;
mod sizes;

pub use laws::{listings_are_of_mounts, mount_images_are_images, mount_images_list_mounts};
pub use nonces::{call_carries_nonce, mounts_have_nonces};
pub use sizes::{MAX_MOUNT_IMAGE_BYTES, mount_images_are_short};
