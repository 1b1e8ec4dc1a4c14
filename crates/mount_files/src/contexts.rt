//! The context of a node on the disk.

ghost use Rattle.std.specs.Prelude.{◌≡◌, ℕ, List, length, None, Some, option_map, IfOk, IsOk};
ghost use Rattle.number_map.specs.Numbered.{get};
ghost use Rattle.policy_ctx.specs.declared.policy.Context.{Context};
ghost use Rattle.policy_ctx.specs.Context.{context_bytes, context_fault};
ghost use Rattle.mount_state.specs.Contexts.{context_on_disk};

use disk_tree::{DiskTree, StoredNode};
use policy_ctx::{Context, CtxFault, decode_context};

// Returns the context of the node, or `None` if it has no policy or there is no such node. Returns a fault
// if the bytes on the disk are no context.
pub(crate) fn context_on(disk: &DiskTree, number: u32) -> Result<Option<Context>, CtxFault>
    ensures none { context_on_disk (get disk.now number) ≡ None → result ≡ Ok None }
    ensures read { (c : Context) → length c.policy.id.0 ≡ 16
        → context_on_disk (get disk.now number) ≡ Some (context_bytes c) → result ≡ Ok (Some c) }
    ensures known { IsOk result → (bytes : List ℕ) → context_on_disk (get disk.now number) ≡ Some bytes
        → context_fault bytes ≡ None }
    ensures found { IfOk result (λ context.
        context_on_disk (get disk.now number) ≡ option_map context_bytes context) }
{
    match disk.node(number) {
        Some(
            StoredNode {
                context: Some(context),
                ..
            },
        ) => match decode_context(context) {
            Ok(context) => Ok(Some(context)),
            Err(fault) => Err(fault),
        },
        _ => Ok(None),
    }
}
