//! The law of images: an empty function whose contract is the law.

ghost use Rattle.tree_image.specs.Agreement.{ImagesAgree};

/// The image of a disk is that of each mount that the disk represents.
pub fn images_agree()
    ensures { ImagesAgree }
{}
