//! The key of a directory's names is cached once a walk derived it.

ghost use Rattle.std.specs.Prelude.{◌≡◌, false, Some, IfSome};
ghost use Rattle.number_map.specs.Numbered as map;
ghost use Rattle.policy_ctx.specs.Context.{context_bytes, HasSizes};
ghost use Rattle.disk_tree.specs.DiskTree.{IsDirAt};
ghost use Rattle.mount_state.specs.Contexts.{context_on_disk};
ghost use Rattle.mount_state.specs.SameButCaches.{SameButCaches, StaysFor};

use crate::contexts::context_of;
use crate::state::MountState;
use disk_tree::DiskTree;
use fsc_keys::KeyKind;
use policy_ctx::Context;
use std::alloc::Global;

// Caches the key of the directory's names, if it is the directory's own and can be derived. If there is no
// memory for it, it isn't cached.
pub(crate) fn cache_key(alloc: Global, state: &mut MountState, dir: u32)
    requires { IsDirAt state.old.disk dir }
    ensures same { SameButCaches state.old state.new }
    ensures names { state.new.names ≡ state.old.names }
    ensures represents { StaysFor state.old state.new }
{
    if state.inodes.key_of(dir).is_some() {
        return;
    }
    let Some(context) = own_context(&state.disk, dir) else {
        return;
    };
    let _exact = state.ring.claims();
    let Some(secret) = state.ring.secret_of(&context.policy.id) else {
        return;
    };
    let key = secret.file_key(KeyKind::Names, &context.nonce);
    let _cached = state
        .inodes
        .keep(alloc, dir, context.policy.id, key)
        .is_ok();
}

// Returns the context of the node, if it has a key of its own.
fn own_context(disk: &DiskTree, node: u32) -> Option<Context>
    ensures found { IfSome result (λ c. context_on_disk (map.get disk.now node) ≡ Some (context_bytes c)) }
    ensures sized { IfSome result HasSizes }
    ensures own { IfSome result (λ c. c.policy.by_mode ≡ false) }
{
    let context = context_of(disk.node(node)?)?;
    if context.policy.by_mode {
        return None;
    }
    Some(context)
}
