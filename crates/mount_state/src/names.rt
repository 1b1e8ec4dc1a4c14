//! Looking a part up in a directory, by stored and by visible names; a name that resolves to a node is
//! cached.

ghost use Rattle.std.specs.Prelude.{◌≡◌, ◌+◌, ◌≤◌, true, false, None, length, IfSome, IsSome};
ghost use Rattle.number_map.specs.Numbered as map;
ghost use Rattle.dentry_cache.specs.Names.{cached_node};
ghost use Rattle.disk_tree.specs.DiskTree.{IsDirAt};
ghost use Rattle.mount_state.specs.CachedNames.{FillsNames};
ghost use Rattle.mount_state.specs.Contexts.{context_on_disk};
ghost use Rattle.mount_state.specs.KeyUse.{is_unlocked};
ghost use Rattle.mount_state.specs.PassedEntries.{CachesOnly, found_entry};
ghost use Rattle.mount_state.specs.Resolution.{Resolves};
ghost use Rattle.mount_state.specs.SameButCaches.{SameButCaches, StaysFor};

use crate::caching::cache_key;
use crate::state::MountState;
use name_crypt::{MAX_NAME_BYTES, Steps, is_plain};
use std::alloc::Global;
use std::sync::ledger::Ledger;

// Returns the node that the part resolves to in a directory with a policy: the one that is cached for the
// name, otherwise the one that is found. If the latter is found under the directory's key, it is then
// cached, and so is that key if there is memory. No other name is cached that was not.
pub(crate) fn resolved_number<L: Ledger>(
    alloc: Global,
    state: &mut MountState,
    dir: u32,
    part: &[u8],
    steps: &mut Steps<L>,
) -> Option<u32>
    requires dir { IsDirAt state.old.disk dir }
    requires short { length part.now ≤ MAX_NAME_BYTES }
    ensures found { Resolves state.old dir part.now result }
    ensures represents { StaysFor state.old state.new }
    ensures same { SameButCaches state.old state.new }
    ensures ticks { steps.new ≤ steps.old + 1 }
    ensures hit { IsSome (cached_node state.old.names dir part.now) → steps.new ≡ steps.old }
    ensures locked { is_unlocked state.old.disk state.old.ring.claims state.old.handles.live dir ≡ false
        → steps.new ≡ steps.old }
    ensures filled { IfSome result (FillsNames state.old.disk state.old.ring.claims state.old.handles.live
        state.old.names state.new.names dir part.now) }
    ensures brought { CachesOnly state.old.names state.new.names (found_entry dir part.now result) }
{
    if let Some(number) = state.names.find(dir, part) {
        return Some(number);
    }
    cache_key(alloc, state, dir);
    let (found, by_key) = number_of(state, dir, part, steps);
    let number = found?;
    if !by_key {
        return Some(number);
    }
    let _counted = state.names.keep(dir, part, number).is_ok();
    Some(number)
}

// Returns the node that the part resolves to in the directory: plain if it has no policy, by one encryption
// if its key is available, otherwise by the part as a no-key text, and nothing is decrypted. Also returns
// whether it was looked up by that encryption.
pub(crate) fn number_of<L: Ledger>(
    state: &MountState,
    dir: u32,
    part: &[u8],
    steps: &mut Steps<L>,
) -> (Option<u32>, bool)
    ensures found { Resolves state.now dir part.now result.0 }
    ensures keyed { result.1 ≡ true
        → is_unlocked state.now.disk state.now.ring.claims state.now.handles.live dir ≡ true }
    ensures by_key { IsSome (context_on_disk (map.get state.now.disk dir)) → IsSome result.0
        → is_unlocked state.now.disk state.now.ring.claims state.now.handles.live dir ≡ true
        → result.1 ≡ true }
    ensures plain { context_on_disk (map.get state.now.disk dir) ≡ None → steps.new ≡ steps.old }
    ensures locked { is_unlocked state.now.disk state.now.ring.claims state.now.handles.live dir ≡ false
        → steps.new ≡ steps.old }
    ensures ticks { steps.new ≤ steps.old + 1 }
{
    let Some(node) = state.disk.node(dir) else {
        return (None, false);
    };
    let Some(context) = &node.context else {
        return (node.body.find(part), false);
    };
    if !state.keyed_under(dir, context) {
        return (state.entry_by_text(dir, part), false);
    }
    if !is_plain(part) {
        return (None, false);
    }
    (state.entry_in(dir, node, part, steps), true)
}
