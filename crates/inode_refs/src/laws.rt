//! Laws of the parts of a cache: each is an empty function whose contract is the law.

ghost use Rattle.inode_refs.specs.Whole.{CachesAreTheirParts, CachedKeysAreTheirKeys};

/// A cache is its keys and its pins, which are seen, and the counts of users, which hold no key, and nothing
/// else.
pub fn a_cache_is_what_is_seen_of_it()
    ensures { CachesAreTheirParts }
{}

/// A cached key is the key that is seen, with the round keys that this has, and nothing else.
pub fn a_cached_key_is_the_key_that_is_seen()
    ensures { CachedKeysAreTheirKeys }
{}
