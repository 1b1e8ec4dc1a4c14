//! Laws of the listings of mounts. These functions do nothing: their contracts are the laws.

ghost use Rattle.listing_laws.specs.Laws.{ChildrenAreGood, ListingsAreOfMounts};
ghost use Rattle.listing_laws.specs.Laws.{MountImagesAreImages, MountImagesAreRead, MountImagesListMounts};

use data_crypt::contents_come_back;
use hmac_kdf::derived_keys_are_bytes;
use image_lines::images_are_texts;
use name_crypt::names_come_back;
use tree_listing::listings_are_one;

/// The listing of a mount's image, with a raw key or without one, is what is visible of the mount with that
/// key, or with none.
pub fn listings_are_of_mounts()
    ensures { ListingsAreOfMounts }
{
    names_come_back();
    contents_come_back();
    derived_keys_are_bytes();
    listings_are_one();
}

/// The image of a mount is an image, if each nonce of the mount has 16 bytes, and so is read from its text.
/// Each entry of it resolves to a node of its own, other than the root, whatever the nonces are.
pub fn mount_images_are_images()
    ensures images { MountImagesAreImages }
    ensures read { MountImagesAreRead }
    ensures children { ChildrenAreGood }
{
    names_come_back();
    derived_keys_are_bytes();
    images_are_texts();
}

/// Reading the text of a mount's image, and listing the result with a raw key or without one, gives what is
/// visible of the mount.
pub fn mount_images_list_mounts()
    ensures { MountImagesListMounts }
{
    mount_images_are_images();
    listings_are_of_mounts();
}
