//! Looking one part up in a directory.

ghost use Rattle.std.specs.Prelude.{◌≡◌, ◌+◌, ◌≤◌, false, length, IfSome, IsSome};
ghost use Rattle.dentry_cache.specs.Names.{cached_node};
ghost use Rattle.disk_tree.specs.DiskTree.{IsDirAt};
ghost use Rattle.mount_model.specs.PlainMount.{PlainMount};
ghost use Rattle.mount_state.specs.CachedNames.{FillsNames};
ghost use Rattle.mount_state.specs.Resolution.{resolved_node};
ghost use Rattle.mount_state.specs.SameButCaches.{SameButCaches, StaysFor};
ghost use Rattle.mount_state.specs.Represents.{Represents};
ghost use Rattle.mount_names.specs.VisibleNames.{encrypts_names};
ghost use Rattle.name_crypt.specs.declared.limits.TheConstants.{MAX_NAME_BYTES};

use mount_model::Part;
use mount_state::{MountState, entry_of};
use name_crypt::Steps;
use std::alloc::Global;
use std::sync::ledger::Ledger;

/// Returns the node of the directory's entry whose visible name is the part: the name if the directory is
/// keyed, the no-key text if it is locked. `None` exactly when no entry has this visible name.
///
/// The part has at most `MAX_NAME_BYTES` bytes. At most one name is encrypted, and none if the name is
/// cached, or the directory has no policy or is locked. Nothing is decrypted. A name that resolves to a
/// node in a keyed directory with a policy is cached from then on. If there is no memory for that, the
/// failure is counted.
pub fn lookup<L: Ledger>(
    alloc: Global,
    state: &mut MountState,
    dir: u32,
    part: &Part,
    steps: &mut Steps<L>,
) -> Option<u32>
    requires dir { IsDirAt state.old.disk dir }
    requires short { length part.now ≤ MAX_NAME_BYTES }
    ensures value { (m : PlainMount) → Represents state.old m → result ≡ resolved_node m dir part.now }
    ensures represents { StaysFor state.old state.new }
    ensures same { SameButCaches state.old state.new }
    ensures ticks { steps.new ≤ steps.old + 1 }
    ensures untouched { encrypts_names state.old dir ≡ false → steps.new ≡ steps.old }
    ensures hit { IsSome (cached_node state.old.names dir part.now) → steps.new ≡ steps.old }
    ensures filled { IfSome result (FillsNames state.old.disk state.old.ring.claims state.old.handles.live
        state.old.names state.new.names dir part.now) }
{
    let node = state.disk.node(dir)?;
    if node.context.is_none() {
        return state.entry_by_name(dir, part.bytes());
    }
    entry_of(alloc, state, dir, part.bytes(), steps).ok()
}
