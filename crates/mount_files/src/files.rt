//! The file that a caller has open.

ghost use Rattle.std.specs.Prelude.{◌≡◌, Some, IfOk, IfErr};
ghost use Rattle.disk_tree.specs.DiskTree.{IsFileAt};
ghost use Rattle.mount_model.specs.OpenHandles.{node_of};
ghost use Rattle.mount_files.specs.OpenFile.{IsFileRefused};

use mount_model::Refusal;
use mount_state::MountState;

// Returns the file that the caller has open under the number. BadHandle if there is none, IsDir if it is a
// directory.
pub(crate) fn open_file(state: &MountState, caller: u32, handle: u32) -> Result<u32, Refusal>
    ensures held { IfOk result (λ file. node_of state.now.handles.live caller handle ≡ Some file) }
    ensures file { IfOk result (IsFileAt state.now.disk) }
    ensures refused { IfErr result (IsFileRefused state.now caller handle) }
{
    let Some(node) = state.handles.node_of(caller, handle) else {
        return Err(Refusal::BadHandle);
    };
    if state.disk.is_dir(node) {
        return Err(Refusal::IsDir);
    }
    if !state.disk.is_file(node) {
        return Err(Refusal::BadHandle);
    }
    Ok(node)
}
