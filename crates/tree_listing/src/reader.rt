//! The reader that an image is listed for, and the values in the bytes of a context.

ghost use Rattle.std.specs.Prelude.{◌≡◌, ◌^◌, ◌%◌};
ghost use Rattle.byte_words.specs.Bytes.{AreBytes};
ghost use Rattle.policy_ctx.specs.Context.{id_in};
ghost use Rattle.policy_ctx.specs.KeyIds.{same_id};
ghost use Rattle.fsc_keys.specs.Keys.{key_bytes, key_id_of, key_kind};
ghost use Rattle.tree_listing.specs.DrawnKeys as spec;
ghost use Rattle.tree_listing.specs.DrawnKeys.{key_in};

use fsc_keys::{FileKey, KeyId, PreparedKey};
use policy_ctx::{CONTEXT_LEN, POLICY_LEN, Unit, id_in, is_by_mode};
use std::marker::Model;

/// A reader with a raw key. The key's identifier is derived once.
#[derive(Drop)]
pub(crate) struct Reader<'k> {
    key: &'k PreparedKey,
    id: KeyId,
}

impl<'k> Model for Reader<'k> {
    ghost use Rattle.std.specs.Prelude.{◌≡◌, ℕ, List};
    ghost use Rattle.fsc_keys.specs.Keys.{key_id_of};

    ghost Value = { List ℕ };

    ghost view = { λ reader. reader.key.now };

    ghost invariant = { λ reader. reader.id ≡ key_id_of reader.key.now };
}

impl<'k> Reader<'k> {
    // Returns the reader with this key.
    pub(crate) fn new(key: &'k PreparedKey) -> Reader<'k>
        ensures { result ≡ key.now }
    {
        let id = key.id();
        Reader { key, id }
    }

    // Returns whether the policy of a node of this context is that of the key.
    pub(crate) fn opens(&self, context: &[u8; CONTEXT_LEN]) -> bool
        ensures { result ≡ same_id (key_id_of self.now) (id_in context.now) }
    {
        self.id == id_in(context)
    }

    // Writes the key of a node of this context over another of its kind.
    pub(crate) fn write_key(&self, context: &[u8; CONTEXT_LEN], key: &mut FileKey)
        ensures key { key.new ≡ key_in self.now context.now (key_kind key.old) }
        ensures ranged { AreBytes (key_bytes key.new) }
    {
        if is_by_mode(context) {
            self.key.write_mode_key(key);
        } else {
            self.key.write_file_key(&nonce_in(context), key);
        }
    }
}

// The nonce of a context.
fn nonce_in(context: &[u8; CONTEXT_LEN]) -> [u8; 16]
    ensures { result ≡ spec.nonce_in context.now }
{
    let mut nonce = [0; 16];
    nonce.copy_from_slice(&context[POLICY_LEN..]);
    nonce
}

// The unit of contents of a context.
pub(crate) fn unit_in(context: &[u8; CONTEXT_LEN]) -> Unit
    ensures { result ≡ spec.unit_in context.now }
{
    Unit::of_log2(u32::from(context[4])).unwrap_or(Unit::Block)
}

// Returns the number from which a node of this number and context counts its units.
pub(crate) fn start_in(number: u32, context: &[u8; CONTEXT_LEN]) -> u64
    ensures value { result ≡ spec.start_in number context.now }
    ensures apart { result % 2 ^ 32 ≡ 0 }
{
    if is_by_mode(context) {
        u64::from(number) * 0x1_0000_0000
    } else {
        0
    }
}
