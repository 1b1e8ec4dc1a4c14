//! How long the image of a mount is.

ghost use Rattle.listing_laws.specs.Sizes.{MountImagesAreShort};

use crate::laws::mount_images_are_images;

/// The maximal number of bytes of the image of a mount: 12 of its first line, 613 for each of 65,536 nodes,
/// 528 for each of 65,535 entries and 8,199 for each of 16,384 blocks.
pub const MAX_MOUNT_IMAGE_BYTES: usize = 209_108_476;

/// The image of a mount whose nonces have 16 bytes has at most `MAX_MOUNT_IMAGE_BYTES` bytes, so fewer than
/// are read as an image. The function does nothing: its contract is the law.
pub fn mount_images_are_short()
    ensures { MountImagesAreShort }
{
    mount_images_are_images();
}
