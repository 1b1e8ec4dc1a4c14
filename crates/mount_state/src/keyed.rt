//! What a name resolves to in a directory whose key is available.

ghost use Rattle.std.specs.Prelude.{◌≡◌, ◌+◌, ◌≤◌, true, false, None, Some, IfSome, is_some, option_copied};
ghost use Rattle.byte_words.specs.Bytes.{AreBytes};
ghost use Rattle.disk_tree.specs.Entries.{number_under};
ghost use Rattle.disk_tree.specs.Nodes.{entries_of};
ghost use Rattle.fsc_keys.specs.Keys.{key_bytes, key_kind};
ghost use Rattle.fsc_keys.specs.declared.file_keys.KeyKind.TheVariants.{Names};
ghost use Rattle.key_ring.specs.Holding.{HoldsClaimedSecrets};
ghost use Rattle.name_crypt.specs.Plain.{IsPlain};
ghost use Rattle.name_crypt.specs.StoredName.{stored_name};
ghost use Rattle.number_map.specs.Numbered as map;
ghost use Rattle.mount_model.specs.Sealed.{node_start};
ghost use Rattle.mount_state.specs.StoredKinds.{is_of_kind};
ghost use Rattle.mount_state.specs.NamesCipher.{IsCipherUnder, ResolvesByOtherKey, other_key, own_names_key};
ghost use Rattle.mount_state.specs.NamesCipher.{used_mode_key};
ghost use Rattle.mount_state.specs.NamesKey.{derived_file_key};
ghost use Rattle.mount_state.specs.Resolution.{ResolvesKeyed};

use super::MountState;
use crate::contexts::context_of;
use byte_words::slice_is_bytes;
use disk_tree::StoredNode;
use fsc_keys::{FileKey, KeyKind};
use name_crypt::{Aes256, MAX_NAME_BYTES, Plain, Steps, encrypt_into, name_iv, names_come_back};
use policy_ctx::Context;
use std::sync::ledger::Ledger;

impl MountState {
    /// Returns the node that the name resolves to in a keyed directory with a policy, or `None` if no entry
    /// has the name. At most one name is encrypted. It is then looked up in a time that doesn't grow with
    /// the number of entries, as long as no names collide.
    pub fn entry_by_key<L: Ledger>(
        &self,
        dir: u32,
        name: &Plain,
        steps: &mut Steps<L>,
    ) -> Option<u32>
        ensures represents { ResolvesKeyed self.now dir name.now result }
        ensures ticks { steps.new ≤ steps.old + 1 }
    {
        let node = self.disk.node(dir)?;
        self.entry_in(dir, node, name.bytes(), steps)
    }

    // The same, if the directory was looked up, for a name in any memory.
    pub(crate) fn entry_in<L: Ledger>(
        &self,
        dir: u32,
        node: &StoredNode,
        name: &[u8],
        steps: &mut Steps<L>,
    ) -> Option<u32>
        requires there { map.get self.now.disk dir ≡ Some node.now }
        requires plain { IsPlain name.now }
        ensures represents { ResolvesKeyed self.now dir name.now result }
        ensures ticks { steps.new ≤ steps.old + 1 }
    {
        // That two names are stored alike only if they are the same.
        names_come_back();
        slice_is_bytes(name);
        let context = context_of(node)?;
        if let Some(cipher) = self.own_cipher(dir, &context) {
            return entry_under(node, dir, &context, cipher, name, steps);
        }
        self.refreshed_entry(dir, node, &context, name, steps)
    }

    // Returns the node of the name's stored form, by a cipher that is made for this call alone. Separate
    // from the path with a cached cipher, which so reserves no stack space for round keys.
    #[inline(never)]
    fn refreshed_entry<L: Ledger>(
        &self,
        dir: u32,
        node: &StoredNode,
        context: &Context,
        name: &[u8],
        steps: &mut Steps<L>,
    ) -> Option<u32>
        requires { IsPlain name.now }
        ensures value { ResolvesByOtherKey self.now.ring self.now.modes dir context.now name.now
            node.now.body result }
        ensures claimed { HoldsClaimedSecrets self.now.ring }
        ensures ticks { steps.new ≤ steps.old + 1 }
    {
        let _claims = self.ring.claims();
        let mut room = Some(Aes256::zeros());
        self.set_other_cipher(context, &mut room);
        let found = match &room {
            Some(cipher) => entry_under(node, dir, context, cipher, name, steps),
            None => None,
        };
        if let Some(cipher) = &mut room {
            cipher.wipe();
        }
        found
    }

    /// The cipher that is cached for the names of the directory, or for the symlink's target; none under
    /// flag 8.
    pub fn own_cipher(&self, node: u32, context: &Context) -> Option<&Aes256>
        ensures value { option_copied result ≡ own_names_key self.now.inodes node context.now }
        ensures ranged { IfSome result (λ cipher. AreBytes cipher.now) }
    {
        if context.policy.by_mode {
            return None;
        }
        self.inodes.cipher_of(node)
    }

    // Makes the cipher in `room` if none is cached for the directory itself: under the key of the mode, if
    // that is in use, otherwise under a key that is derived from the secret. Makes none if no user has a
    // claim.
    fn set_other_cipher(&self, context: &Context, room: &mut Option<Aes256>)
        requires { is_some room.old ≡ true }
        ensures value { IsCipherUnder (other_key self.now.ring self.now.modes context.now) room.new }
        ensures ranged { IfSome room.new AreBytes }
    {
        if let Some(key) = self.used_mode_key(context) {
            set_cipher(room, key);
            return;
        }
        let mut key = FileKey::zeros(KeyKind::Names);
        if self.derive_name_key(context, &mut key) {
            set_cipher(room, &key);
        } else {
            *room = None;
        }
        key.wipe();
    }

    // Returns the key of the mode, if the policy has one for each mode and it is in use.
    fn used_mode_key(&self, context: &Context) -> Option<&FileKey>
        ensures { option_copied result ≡ used_mode_key self.now.modes context.now }
    {
        if !context.policy.by_mode {
            return None;
        }
        self.modes.key_of(&context.policy.id, KeyKind::Names)
    }

    /// Derives the key of the names from the secret, over another one of names, and returns true. If no
    /// user has a claim, leaves that one as it was, and returns false.
    pub fn derive_name_key(&self, context: &Context, key: &mut FileKey) -> bool
        requires { key_kind key.old ≡ Names }
        ensures drawn { result ≡ true → derived_file_key self.now.ring context.now ≡ Some key.new }
        ensures none { result ≡ false → derived_file_key self.now.ring context.now ≡ None }
        ensures kept { result ≡ false → key.new ≡ key.old }
    {
        match self.ring.secret_of(&context.policy.id) {
            Some(secret) if context.policy.by_mode => {
                secret.write_mode_key(key);
                true
            }
            Some(secret) => {
                secret.write_file_key(&context.nonce, key);
                true
            }
            None => false,
        }
    }
}

// Makes the cipher under a key of names in `room`. A contents key encrypts no name.
fn set_cipher(room: &mut Option<Aes256>, key: &FileKey)
    requires { is_some room.old ≡ true }
    ensures value { is_of_kind Names key.now ≡ true → room.new ≡ Some (key_bytes key.now) }
    ensures ranged { IfSome room.new AreBytes }
{
    if let FileKey::Names(bytes) = key {
        slice_is_bytes(&bytes[..]);
        if let Some(cipher) = room {
            cipher.set(bytes);
        }
        return;
    }
    *room = None;
}

// The node under the name's stored form.
fn entry_under<L: Ledger>(
    node: &StoredNode,
    dir: u32,
    context: &Context,
    cipher: &Aes256,
    name: &[u8],
    steps: &mut Steps<L>,
) -> Option<u32>
    requires { IsPlain name.now }
    ensures value { result ≡ number_under
        (stored_name cipher.now (node_start dir context.now) context.now.policy.pad name.now)
        (entries_of node.now.body) }
    ensures ticks { steps.new ≡ steps.old + 1 }
{
    let iv = name_iv(start_of(dir, context));
    let mut text = [0; MAX_NAME_BYTES];
    let len = encrypt_into(cipher, iv, context.policy.pad, name, &mut text, steps);
    node.body.find(&text[..len])
}

/// Returns the first unit number of the names of the directory, or of the symlink's target.
pub fn start_of(node: u32, context: &Context) -> u64
    ensures { result ≡ node_start node context.now }
{
    if context.policy.by_mode {
        u64::from(node) << 32
    } else {
        0
    }
}
