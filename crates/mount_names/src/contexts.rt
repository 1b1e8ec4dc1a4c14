//! The context of a node.

ghost use Rattle.std.specs.Prelude.{◌≡◌, Some};
ghost use Rattle.number_map.specs.Numbered.{get};
ghost use Rattle.plain_tree.specs.NodesByNumber.{context_at};
ghost use Rattle.mount_model.specs.PlainMount.{PlainMount};
ghost use Rattle.mount_state.specs.Represents.{Represents};

use disk_tree::StoredNode;
use mount_state::{MountState, context_of};
use policy_ctx::Context;

// Returns the context of the node, or `None` if it has no policy or doesn't exist.
pub(crate) fn context_at(state: &MountState, number: u32) -> Option<Context>
    ensures { (m : PlainMount) → Represents state.now m → result ≡ context_at m.nodes number }
{
    match state.disk.node(number) {
        Some(node) => reported_context(state, number, node),
        None => None,
    }
}

// The same if the node was looked up.
pub(crate) fn reported_context(
    state: &MountState,
    number: u32,
    node: &StoredNode,
) -> Option<Context>
    requires { get state.now.disk number ≡ Some node.now }
    ensures { (m : PlainMount) → Represents state.now m → result ≡ context_at m.nodes number }
{
    context_of(node)
}
