//! The key of an open file's contents.

ghost use Rattle.std.specs.Prelude.{◌≡◌, Some, IfOk, IsOk, List, ℕ, option_copied, option_map};
ghost use Rattle.data_crypt.specs.Laws.{IsKeyOfBytes};
ghost use Rattle.fsc_keys.specs.declared.file_keys.FileKey.TheVariants as key;
ghost use Rattle.file_disk.specs.Keys.{seal_of};
ghost use Rattle.mount_files.specs.Seals.{IsSealOf, held_key, seal_with};
ghost use Rattle.mount_files.specs.OpenFile.{HasOpen};

use crate::contexts::context_on;
use byte_words::slice_is_bytes;
use file_disk::ContentsKey;
use fsc_keys::{FileKey, KeyKind};
use mount_model::Refusal;
use mount_state::{MountState, start_of};
use policy_ctx::Context;

// Returns what the contents of the file are sealed with: the file's own cached key, or that of its mode, or
// `None` if the file has no policy. Returns BadHandle if its key isn't held; for an open file of a mount it
// always is.
pub(crate) fn key_of(state: &MountState, file: u32) -> Result<Option<ContentsKey>, Refusal>
    ensures sealed { IfOk result (λ key. IsSealOf state.now file (seal_of key)) }
    ensures ranged { IfOk result (λ key. IsKeyOfBytes (seal_of key)) }
    ensures held { HasOpen state.now file → IsOk result }
{
    match context_on(&state.disk, file) {
        Ok(Some(context)) => key_under(state, file, &context),
        Ok(None) => Ok(None),
        Err(_) => Err(Refusal::BadHandle),
    }
}

// The same for a file of this context.
fn key_under(
    state: &MountState,
    file: u32,
    context: &Context,
) -> Result<Option<ContentsKey>, Refusal>
    ensures sealed { IfOk result (λ key. seal_of key
        ≡ option_map (seal_with file context.now) (held_key state.now file context.now)) }
    ensures ranged { IfOk result (λ key. IsKeyOfBytes (seal_of key)) }
    ensures held { (bytes : List ℕ)
        → held_key state.now file context.now ≡ Some (key.Contents bytes) → IsOk result }
{
    match held_key(state, file, context) {
        Some(FileKey::Contents(bytes)) => {
            slice_is_bytes(&bytes[..]);
            Ok(Some(ContentsKey {
                bytes: *bytes,
                start: start_of(file, context),
                unit: context.policy.unit,
            }))
        }
        _ => Err(Refusal::BadHandle),
    }
}

// Returns the key that is held: the mode key under flag 8, else the file's own.
fn held_key<'a>(state: &'a MountState, file: u32, context: &Context) -> Option<&'a FileKey>
    ensures { option_copied result ≡ held_key state.now file context.now }
{
    if context.policy.by_mode {
        return state.modes.key_of(&context.policy.id, KeyKind::Contents);
    }
    state.inodes.key_of(file)
}
