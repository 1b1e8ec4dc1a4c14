//! Dropping what is cached for speed alone.

ghost use Rattle.std.specs.Prelude.{◌≡◌, []};
ghost use Rattle.dentry_cache.specs.Names.{with_pairs};
ghost use Rattle.inode_refs.specs.Evictions.{without_unpinned_keys};
ghost use Rattle.mount_model.specs.PlainMount.{PlainMount};
ghost use Rattle.mount_model.specs.AnswerForms.{done};
ghost use Rattle.mount_state.specs.AnswerOf.{IsAnswerOf};
ghost use Rattle.mount_state.specs.SameButCaches.{SameButCaches};
ghost use Rattle.mount_state.specs.Represents.{Represents};

use mount_model::Reply;
use mount_state::MountState;

/// Wipes and drops the cached keys of all nodes without a handle, and no others, and drops all cached
/// names. It takes no memory, and is never refused.
pub fn drop_caches(state: &mut MountState) -> Reply
    ensures told { result ≡ Reply.Done }
    ensures dropped { state.new.inodes.keys ≡ without_unpinned_keys state.old.inodes }
    ensures names { state.new.names ≡ with_pairs state.old.names [] }
    ensures same { SameButCaches state.old state.new }
    ensures represents { (m : PlainMount) → Represents state.old m → IsAnswerOf (done m) result state.new }
{
    state.inodes.evict_all_unpinned();
    state.names.forget_all();
    Reply::Done
}
