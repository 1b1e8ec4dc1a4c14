//! What reading a symlink returns.

ghost use Rattle.std.specs.Prelude.{◌+◌, ◌≤◌, length};
ghost use Rattle.number_map.specs.Numbered.{get};
ghost use Rattle.mount_model.specs.PlainMount.{PlainMount};
ghost use Rattle.mount_model.specs.LookAnswers.{answer_to_read_link, target_answer};
ghost use Rattle.mount_state.specs.PassedEntries.{CachesPassed};
ghost use Rattle.mount_state.specs.SameButCaches.{SameButCaches};
ghost use Rattle.mount_state.specs.Represents.{Represents};
ghost use Rattle.mount_state.specs.AnswerOf.{IsAnswerOrNoMemory, IsReplyOrNoMemory, IsExpectedRefusal};

use crate::reading::reading_of;
use disk_tree::Body;
use item_list::Bytes;
use mount_model::{Path, Refusal, Reply};
use mount_state::{MountState, walked_node};
use name_crypt::Steps;
use std::alloc::Global;
use std::sync::ledger::Ledger;

/// Returns the target of the symlink at the end of the path; if the symlink is locked, the no-key text of
/// the target. Refused as the walk is, then with Inval if the node is no symlink, and with NoMemory if
/// there is no memory for the bytes.
pub fn read_link<L: Ledger>(
    alloc: Global,
    state: &mut MountState,
    path: &Path,
    steps: &mut Steps<L>,
) -> Reply
    ensures represents { (m : PlainMount) → Represents state.old m
        → IsAnswerOrNoMemory m (answer_to_read_link m path.now) result state.new }
    ensures due { (m : PlainMount) → Represents state.old m
        → IsExpectedRefusal (answer_to_read_link m path.now) result }
    ensures same { SameButCaches state.old state.new }
    ensures ticks { steps.new ≤ steps.old + length path.now }
    ensures brought { CachesPassed state.old state.new path.now }
{
    match walked_node(alloc, state, path, steps) {
        Ok(number) => link_reply(alloc, state, number),
        Err(refusal) => Reply::Refused(refusal),
    }
}

// Returns the reply to reading the node as a symlink.
fn link_reply(alloc: Global, state: &MountState, number: u32) -> Reply
    ensures told { (m : PlainMount) → Represents state.now m
        → IsReplyOrNoMemory (target_answer m number (get m.nodes number)).reply result }
    ensures due { (m : PlainMount) → Represents state.now m
        → IsExpectedRefusal (target_answer m number (get m.nodes number)) result }
{
    let Some(node) = state.disk.node(number) else {
        return Reply::Refused(Refusal::NotFound);
    };
    match &node.body {
        Body::Link(target) => {
            let mut reading = reading_of(state, number);
            let shown = reading.shown(target.as_slice());
            reading.wipe();
            copied(alloc, shown.bytes())
        }
        _ => Reply::Refused(Refusal::Inval),
    }
}

// Returns the bytes as a target, or NoMemory.
fn copied(alloc: Global, bytes: &[u8]) -> Reply
    ensures { IsReplyOrNoMemory (Reply.Target bytes.now) result }
{
    match Vec::from_slice(alloc, bytes) {
        Ok(copy) => Reply::Target(Bytes::from_vec(copy)),
        Err(_) => Reply::Refused(Refusal::NoMemory),
    }
}
