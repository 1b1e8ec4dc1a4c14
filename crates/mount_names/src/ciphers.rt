//! The cipher of a node's names: of a directory's entries, or of a symlink's target.

ghost use Rattle.std.specs.Prelude.{◌≡◌, true, Some, IfSome, option_copied, option_map};
ghost use Rattle.byte_words.specs.Bytes.{AreBytes};
ghost use Rattle.disk_tree.specs.DiskTree.{IsDirAt};
ghost use Rattle.fsc_keys.specs.declared.file_keys.KeyKind.TheVariants.{Names};
ghost use Rattle.key_ring.specs.Holding.{HoldsClaimedSecrets};
ghost use Rattle.mount_state.specs.StoredKinds.{is_of_kind};
ghost use Rattle.mount_state.specs.NamesKey.{cached_key, derived_file_key};
ghost use Rattle.mount_names.specs.VisibleNames.{IsCipherOf};
ghost use Rattle.mount_names.specs.NameCiphers.{cipher_with};

use byte_words::slice_is_bytes;
use fsc_keys::{FileKey, KeyKind};
use mount_state::{MountState, start_of};
use name_crypt::NameCipher;
use policy_ctx::Context;

// Returns the cipher of the names of the directory, or of the target of the symlink. Returns `None` if its
// key is not available.
pub(crate) fn cipher_of(state: &MountState, number: u32, context: &Context) -> Option<NameCipher>
    ensures keyed { IsCipherOf state.now number context.now result }
    ensures ranged { IfSome result (λ cipher. AreBytes cipher.key) }
{
    if state.disk.is_dir(number) {
        return dir_cipher(state, number, context);
    }
    derived_cipher(state, number, context)
}

// Returns the cipher of a directory: under the key that is cached for it, else under a derived key.
fn dir_cipher(state: &MountState, dir: u32, context: &Context) -> Option<NameCipher>
    requires { IsDirAt state.now.disk dir }
    ensures keyed { IsCipherOf state.now dir context.now result }
    ensures ranged { IfSome result (λ cipher. AreBytes cipher.key) }
{
    match cached_key(state, dir, context) {
        Some(key) => cipher_under(key, dir, context),
        None => derived_cipher(state, dir, context),
    }
}

// Returns the cipher under a key that is derived from the secret, or `None` if no user has a claim.
pub(crate) fn derived_cipher(
    state: &MountState,
    number: u32,
    context: &Context,
) -> Option<NameCipher>
    ensures value { result ≡ option_map (cipher_with number context.now)
        (derived_file_key state.now.ring context.now) }
    ensures claimed { HoldsClaimedSecrets state.now.ring }
    ensures ranged { IfSome result (λ cipher. AreBytes cipher.key) }
{
    match derived_file_key(state, context) {
        Some(mut key) => {
            let cipher = cipher_under(&key, number, context);
            key.wipe();
            cipher
        }
        None => None,
    }
}

// Returns the cached key: the mode key under flag 8, else the node's own.
fn cached_key<'a>(state: &'a MountState, number: u32, context: &Context) -> Option<&'a FileKey>
    ensures { option_copied result ≡ cached_key state.now.inodes state.now.modes number context.now }
{
    if context.policy.by_mode {
        return state.modes.key_of(&context.policy.id, KeyKind::Names);
    }
    state.inodes.key_of(number)
}

// Returns the same key, derived from the secret, if a user has a claim.
pub(crate) fn derived_file_key(state: &MountState, context: &Context) -> Option<FileKey>
    ensures value { result ≡ derived_file_key state.now.ring context.now }
    ensures kind { IfSome result (λ key. is_of_kind Names key ≡ true) }
    ensures claimed { HoldsClaimedSecrets state.now.ring }
{
    let _claims = state.ring.claims();
    let mut key = FileKey::zeros(KeyKind::Names);
    if state.derive_name_key(context, &mut key) {
        return Some(key);
    }
    None
}

// Returns the cipher under the key, or `None` for a contents key, which encrypts no name.
pub(crate) fn cipher_under(key: &FileKey, number: u32, context: &Context) -> Option<NameCipher>
    ensures value { is_of_kind Names key.now ≡ true
        → result ≡ Some (cipher_with number context.now key.now) }
    ensures ranged { IfSome result (λ cipher. AreBytes cipher.key) }
{
    match key {
        FileKey::Names(bytes) => {
            slice_is_bytes(&bytes[..]);
            Some(NameCipher::new(bytes, start_of(number, context)))
        }
        FileKey::Contents(_) => None,
    }
}
