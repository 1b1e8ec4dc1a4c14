//! What a node is, and its policy.

ghost use Rattle.std.specs.Prelude.{◌≡◌, ◌+◌, ◌<◌, ◌^◌, ◌≤◌, ℕ, Some, length};
ghost use Rattle.number_map.specs.Numbered.{get};
ghost use Rattle.plain_tree.specs.Nodes.{Node};
ghost use Rattle.plain_tree.specs.NodesByNumber.{context_at};
ghost use Rattle.mount_model.specs.PlainMount.{PlainMount};
ghost use Rattle.mount_model.specs.LookAnswers as look;
ghost use Rattle.mount_model.specs.LookAnswers.{answer_to_stat};
ghost use Rattle.mount_model.specs.PolicyAnswers as policy;
ghost use Rattle.mount_model.specs.PolicyAnswers.{answer_to_get_policy};
ghost use Rattle.mount_state.specs.PassedEntries.{CachesPassed};
ghost use Rattle.mount_state.specs.SameButCaches.{SameButCaches};
ghost use Rattle.mount_state.specs.Represents.{Represents};
ghost use Rattle.mount_state.specs.Stored.{stored_body};
ghost use Rattle.mount_state.specs.AnswerOf.{IsAnswerOf};

use crate::contexts::context_at;
use crate::reading::reading_of;
use disk_tree::Body;
use mount_model::{NodeKind, Path, Refusal, Reply};
use mount_state::{MountState, walked_node};
use name_crypt::Steps;
use policy_ctx::encode_policy;
use std::alloc::Global;
use std::sync::ledger::Ledger;

/// Returns what the node at the end of the path is: its kind, its number, its size, whether it has a
/// policy, and whether its key is available. The size is a directory's number of entries, a file's length
/// in bytes, or the length of what `read_link` returns. Refused as the walk is.
///
/// Never fails for lack of memory.
pub fn stat<L: Ledger>(
    alloc: Global,
    state: &mut MountState,
    path: &Path,
    steps: &mut Steps<L>,
) -> Reply
    ensures represents { (m : PlainMount) → Represents state.old m
        → IsAnswerOf (answer_to_stat m path.now) result state.new }
    ensures same { SameButCaches state.old state.new }
    ensures ticks { steps.new ≤ steps.old + length path.now }
    ensures brought { CachesPassed state.old state.new path.now }
{
    match walked_node(alloc, state, path, steps) {
        Ok(number) => stat_answer(state, number),
        Err(refusal) => Reply::Refused(refusal),
    }
}

/// Returns the policy of the node at the end of the path, in the 24 bytes of Linux's layout. Refused as the
/// walk is, then with NoData if there is no policy.
///
/// Never fails for lack of memory.
pub fn get_policy<L: Ledger>(
    alloc: Global,
    state: &mut MountState,
    path: &Path,
    steps: &mut Steps<L>,
) -> Reply
    ensures represents { (m : PlainMount) → Represents state.old m
        → IsAnswerOf (answer_to_get_policy m path.now) result state.new }
    ensures same { SameButCaches state.old state.new }
    ensures ticks { steps.new ≤ steps.old + length path.now }
    ensures brought { CachesPassed state.old state.new path.now }
{
    match walked_node(alloc, state, path, steps) {
        Ok(number) => policy_answer(state, number),
        Err(refusal) => Reply::Refused(refusal),
    }
}

// Returns the reply with the policy of the node.
fn policy_answer(state: &MountState, number: u32) -> Reply
    ensures { (m : PlainMount) → Represents state.now m
        → result ≡ (policy.policy_answer m (context_at m.nodes number)).reply }
{
    match context_at(state, number) {
        Some(context) => Reply::PolicyIs(encode_policy(&context.policy)),
        None => Reply::Refused(Refusal::NoData),
    }
}

// Returns the reply of `stat` for the node.
fn stat_answer(state: &MountState, number: u32) -> Reply
    ensures { (m : PlainMount) → Represents state.now m
        → result ≡ (look.stat_answer m number (get m.nodes number)).reply }
{
    let Some(node) = state.disk.node(number) else {
        return Reply::Refused(Refusal::NotFound);
    };
    Reply::Stat {
        kind: kind_shown(&node.body),
        node: number,
        size: size_of(state, number, &node.body),
        encrypted: node.context.is_some(),
        keyed: state.keyed(number),
    }
}

fn kind_shown(body: &Body) -> NodeKind
    ensures { (m : PlainMount) (number : ℕ) (v : Node) → body.now ≡ stored_body m.raws number v.context v.body
        → result ≡ look.node_kind v.body }
{
    match body {
        Body::Dir(_) => NodeKind::Dir,
        Body::File { .. } => NodeKind::File,
        Body::Link(_) => NodeKind::Link,
    }
}

// The size of the node that has this body.
fn size_of(state: &MountState, number: u32, body: &Body) -> u32
    ensures { (m : PlainMount) (v : Node) → Represents state.now m → get m.nodes number ≡ Some v
        → body.now ≡ stored_body m.raws number v.context v.body → result ≡ look.size_of m number v.body }
{
    match body {
        Body::Dir(entries) => told(entries.len()),
        Body::File { size, .. } => *size,
        Body::Link(target) => {
            let mut reading = reading_of(state, number);
            let len = reading.shown(target.as_slice()).len();
            reading.wipe();
            told(len)
        }
    }
}

// Returns a length as a number of 32 bits.
fn told(length: usize) -> u32
    ensures { length < 2 ^ 32 → result ≡ length }
{
    u32::try_from(length).unwrap_or(u32::MAX)
}
