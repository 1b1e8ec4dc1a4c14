//! Which bytes are allowed as a name or a target.

ghost use Rattle.std.specs.Prelude.{◌≡◌};
ghost use Rattle.image_lines.specs.StoredNames as spec;

use name_crypt::{MAX_NAME_BYTES, MIN_STORED_BYTES};
use text_words::may_be_part;

// Returns whether a directory, under a policy or not, may have the bytes as an entry's name.
pub(crate) fn is_entry_name(under_policy: bool, name: &[u8]) -> bool
    ensures { result ≡ spec.is_entry_name under_policy name.now }
{
    if under_policy {
        is_stored(MIN_STORED_BYTES, name)
    } else {
        is_stored(1, name) && may_be_part(name)
    }
}

// Returns whether a link, under a policy or not, may have the bytes as its target.
pub(crate) fn is_target(under_policy: bool, target: &[u8]) -> bool
    ensures { result ≡ spec.is_target under_policy target.now }
{
    let least = if under_policy { MIN_STORED_BYTES } else { 1 };
    is_stored(least, target)
}

fn is_stored(least: usize, bytes: &[u8]) -> bool
    ensures { result ≡ spec.is_stored least bytes.now }
{
    least <= bytes.len() && bytes.len() <= MAX_NAME_BYTES
}
