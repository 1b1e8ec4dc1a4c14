//! The calls that make a node: a directory, a file or a symlink.

ghost use Rattle.std.specs.Prelude.{◌≡◌, ◌+◌, ◌<◌, ◌≤◌, ◌^◌, [], length, true, option_map};
ghost use Rattle.policy_ctx.specs.Context.{context_bytes};
ghost use Rattle.plain_tree.specs.Nodes as node;
ghost use Rattle.disk_tree.specs.DiskTree.{IsDirAt};
ghost use Rattle.disk_tree.specs.Nodes.{blocks_of};
ghost use Rattle.mount_model.specs.Carried.{IsPath};
ghost use Rattle.mount_model.specs.ClaimHistory.{is_refused};
ghost use Rattle.mount_model.specs.EntryPaths.{parent_parts};
ghost use Rattle.mount_model.specs.NameAnswers.{answer_to_make};
ghost use Rattle.mount_model.specs.NewNodes.{inherited_context};
ghost use Rattle.mount_model.specs.PlainMount.{PlainMount};
ghost use Rattle.mount_state.specs.PassedEntries.{CachesPassed};
ghost use Rattle.mount_state.specs.SameButCaches.{SameButCaches};
ghost use Rattle.mount_state.specs.Represents.{Represents};
ghost use Rattle.mount_state.specs.AnswerOf.{IsAnswerOrNoMemory, IsExpectedRefusal};
ghost use Rattle.mount_names.specs.NewEntries.{MakesAt};
ghost use Rattle.mount_names.specs.SameButTree.{SameButTree};

use crate::places::{Place, place_at};
use disk_tree::{BlockList, Body, DirEntries, StoredNode};
use mount_model::{Path, Refusal, Reply};
use mount_state::MountState;
use name_crypt::{MAX_NAME_BYTES, Steps};
use policy_ctx::{CONTEXT_LEN, Context, encode_context};
use std::alloc::Global;
use std::sync::ledger::Ledger;

/// Makes an empty directory at the end of the path. The directory gets the policy of its parent, with this
/// nonce.
///
/// Refused, in this order: with Exists for the root; as the walk to the parent is; NoKey if the key of the
/// parent's policy isn't present; Exists; NoKeyClash; NoSpace; NoMemory.
pub fn mkdir<L: Ledger>(
    alloc: Global,
    state: &mut MountState,
    path: &Path,
    nonce: &[u8; 16],
    steps: &mut Steps<L>,
) -> Reply
    ensures represents { (m : PlainMount) → Represents state.old m → IsPath path.now
        → IsAnswerOrNoMemory m (answer_to_make m path.now nonce.now (node.Dir [])) result state.new }
    ensures due { (m : PlainMount) → Represents state.old m → IsPath path.now
        → IsExpectedRefusal (answer_to_make m path.now nonce.now (node.Dir [])) result }
    ensures refused { is_refused result ≡ true → SameButCaches state.old state.new }
    ensures same { SameButTree state.old state.new }
    ensures ticks { steps.new ≤ steps.old + length path.now }
    ensures brought { CachesPassed state.old state.new (parent_parts path.now) }
{
    let mut room = [0; MAX_NAME_BYTES];
    match place_at(alloc, state, path, false, &mut room, steps) {
        Ok(place) => make(alloc, state, &place, nonce, empty_dir(alloc)),
        Err(refusal) => Reply::Refused(refusal),
    }
}

/// Makes an empty file, as `mkdir` makes a directory.
pub fn create<L: Ledger>(
    alloc: Global,
    state: &mut MountState,
    path: &Path,
    nonce: &[u8; 16],
    steps: &mut Steps<L>,
) -> Reply
    ensures represents { (m : PlainMount) → Represents state.old m → IsPath path.now
        → IsAnswerOrNoMemory m (answer_to_make m path.now nonce.now (node.File [])) result state.new }
    ensures due { (m : PlainMount) → Represents state.old m → IsPath path.now
        → IsExpectedRefusal (answer_to_make m path.now nonce.now (node.File [])) result }
    ensures refused { is_refused result ≡ true → SameButCaches state.old state.new }
    ensures same { SameButTree state.old state.new }
    ensures ticks { steps.new ≤ steps.old + length path.now }
    ensures brought { CachesPassed state.old state.new (parent_parts path.now) }
{
    let mut room = [0; MAX_NAME_BYTES];
    match place_at(alloc, state, path, false, &mut room, steps) {
        Ok(place) => make(alloc, state, &place, nonce, empty_file(alloc)),
        Err(refusal) => Reply::Refused(refusal),
    }
}

// A directory without entries.
fn empty_dir(alloc: Global) -> Body
    ensures { result ≡ Body.Dir [] }
{
    Body::Dir(DirEntries::new(alloc))
}

// A file without contents.
fn empty_file(alloc: Global) -> Body
    ensures { result ≡ Body.File [] 0 }
{
    Body::File {
        blocks: BlockList::new(alloc),
        size: 0,
    }
}

// Makes the node under the next number, and the name that resolves to it.
pub(crate) fn make(
    alloc: Global,
    state: &mut MountState,
    place: &Place,
    nonce: &[u8; 16],
    body: Body,
) -> Reply
    requires dir { IsDirAt state.old.disk place.now.dir }
    requires room { state.old.next_node + 1 < 2 ^ 32 }
    requires no_blocks { blocks_of body ≡ [] }
    ensures represents { MakesAt state.old state.new place.now nonce.now body result }
    ensures refused { is_refused result ≡ true → SameButCaches state.old state.new }
    ensures same { SameButTree state.old state.new }
    ensures names { state.new.names ≡ state.old.names }
{
    let number = state.next_node;
    let node = StoredNode {
        context: stored_context(&context_of_new(place, nonce)),
        named: true,
        body,
    };
    match state
        .disk
        .add_node_and_entry(alloc, place.dir, place.stored, number, node)
    {
        Ok(()) => {
            state.next_node = number + 1;
            Reply::Done
        }
        Err(_) => Reply::Refused(Refusal::NoMemory),
    }
}

// Returns the context of a node that is made there: the policy of the directory, and its own nonce.
pub(crate) fn context_of_new(place: &Place, nonce: &[u8; 16]) -> Option<Context>
    ensures { result ≡ inherited_context nonce.now place.now.context }
{
    match &place.context {
        Some(context) => Some(Context {
            policy: context.policy,
            nonce: *nonce,
        }),
        None => None,
    }
}

// The bytes of the context.
fn stored_context(context: &Option<Context>) -> Option<[u8; CONTEXT_LEN]>
    ensures { result ≡ option_map context_bytes context.now }
{
    match context {
        Some(context) => Some(encode_context(context)),
        None => None,
    }
}
