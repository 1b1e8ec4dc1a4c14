//! The context of a node on the disk.

ghost use Rattle.std.specs.Prelude.{◌≡◌, None, Some, IfSome};
ghost use Rattle.policy_ctx.specs.Context.{context_bytes, HasSizes};
ghost use Rattle.mount_state.specs.NamesKey.{IsContextIn};

use disk_tree::StoredNode;
use policy_ctx::{Context, decode_context};

/// Returns the context of the node, or `None` if it has none, or its bytes are no context, which those on
/// the disk of a mount never are.
pub fn context_of(node: &StoredNode) -> Option<Context>
    ensures read { IsContextIn node.now.context result }
    ensures none { node.now.context ≡ None → result ≡ None }
    ensures found { IfSome result (λ c. node.now.context ≡ Some (context_bytes c)) }
    ensures sized { IfSome result HasSizes }
{
    let Some(bytes) = &node.context else {
        return None;
    };
    let _forty = *bytes;
    match decode_context(bytes) {
        Ok(context) => Some(context),
        Err(_) => None,
    }
}
