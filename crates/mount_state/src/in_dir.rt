//! What a name, or a no-key text, resolves to in one directory.

ghost use Rattle.std.specs.Prelude.{◌≡◌, ◌≤◌, length, option_map, IfSome, IsTrue};
ghost use Rattle.std.specs.Map.{lookup, lookup_entry};
ghost use Rattle.disk_tree.specs.DiskTree.{children};
ghost use Rattle.disk_tree.specs.Entries.{number_under};
ghost use Rattle.mount_state.specs.Resolution.{has_visible_name, is_text_of, ResolvesPlain, ResolvesLocked};
ghost use Rattle.name_crypt.specs.declared.limits.TheConstants.{MAX_NAME_BYTES};

use super::MountState;
use disk_tree::{Body, DirEntries, StoredNode};
use name_crypt::{
    MAX_NAME_BYTES, MAX_SPELLED_BYTES, MIN_STORED_BYTES, has_visible_name, names_come_back,
    shown_by,
};

impl MountState {
    /// Returns the node that the name resolves to in a directory without policy, or `None` if no entry has
    /// the name. The time doesn't grow with the number of entries, as long as no names collide in their
    /// hash.
    pub fn entry_by_name(&self, dir: u32, name: &[u8]) -> Option<u32>
        ensures value { result ≡ number_under name.now (children self.now.disk dir) }
        ensures represents { ResolvesPlain self.now dir name.now result }
    {
        self.disk.entry(dir, name)
    }

    /// Returns the node that the no-key text resolves to in a locked directory, or `None` if no name has
    /// the text. Decrypts nothing. The time doesn't grow with the number of entries, as long as no names
    /// collide in their hash; only a text that has a hash is compared with each.
    // Not inlined: the usual path would reserve stack space for it.
    #[inline(never)]
    pub fn entry_by_text(&self, dir: u32, text: &[u8]) -> Option<u32>
        ensures value { result ≡ lookup (is_text_of text.now) (children self.now.disk dir) }
        ensures represents { ResolvesLocked self.now dir text.now result }
    {
        // That the stored form of each name has 16 to 255 bytes.
        names_come_back();
        match self.disk.node(dir) {
            Some(
                StoredNode {
                    body: Body::Dir(entries),
                    ..
                },
            ) => find_text(entries, text),
            _ => None,
        }
    }
}

// Returns the node of the first entry whose stored name has the text. The text is decoded once, and
// compared by what it spells.
fn find_text(entries: &DirEntries, text: &[u8]) -> Option<u32>
    ensures { result ≡ lookup (is_text_of text.now) entries.now }
{
    // That a text is determined by what it spells, as stored names are bytes.
    entries.names_are_bytes();
    let Some(shown) = shown_by(text) else {
        return None;
    };
    match entry_of_visible_name(entries, shown.bytes()) {
        Some((_name, number)) => Some(number),
        None => None,
    }
}

/// Returns the first entry whose stored name is spelled as `shown`, with that name. A name that is spelled
/// whole is looked up, by hash. Only what is spelled of a longer name is compared with each entry.
pub fn entry_of_visible_name<'a>(
    entries: &'a DirEntries,
    shown: &'a [u8],
) -> Option<(&'a [u8], u32)>
    ensures found { option_map (λ e. (e.0.now, e.1)) result
        ≡ lookup_entry (has_visible_name shown.now) entries.now }
    ensures short { IfSome result (λ e. length e.0.now ≤ MAX_NAME_BYTES) }
{
    if shown.len() > MAX_SPELLED_BYTES {
        return long_entry(entries, shown);
    }
    if shown.len() < MIN_STORED_BYTES {
        return None;
    }
    match entries.find(shown) {
        Some(number) => Some((shown, number)),
        None => None,
    }
}

// The same by a search from the first entry on.
fn long_entry<'a>(entries: &'a DirEntries, shown: &[u8]) -> Option<(&'a [u8], u32)>
    ensures found { option_map (λ e. (e.0.now, e.1)) result
        ≡ lookup_entry (has_visible_name shown.now) entries.now }
    ensures short { IfSome result (λ e. length e.0.now ≤ MAX_NAME_BYTES) }
{
    'each: for entry in entries.iter() {
        let stored = entry.0.as_slice();
        if is_name_shown_as(stored, shown) {
            return Some((stored, entry.1));
        }
    }
    None
}

// Whether these bytes are a stored name that is spelled as `shown`.
fn is_name_shown_as(stored: &[u8], shown: &[u8]) -> bool
    ensures value { result ≡ has_visible_name shown.now stored.now }
    ensures short { IsTrue result → length stored.now ≤ MAX_NAME_BYTES }
{
    if stored.len() < MIN_STORED_BYTES || stored.len() > MAX_NAME_BYTES {
        return false;
    }
    has_visible_name(stored, shown)
}
