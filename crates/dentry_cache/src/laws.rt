//! What the cache is made of. This function does nothing: its contract is the law.

ghost use Rattle.dentry_cache.specs.Whole.{NameCachesAreWhatIsSeen};

/// A cache is its pairs and its count, which are visible, and nothing else: it holds no further names.
pub fn a_name_cache_is_what_is_seen_of_it()
    ensures { NameCachesAreWhatIsSeen }
{}
