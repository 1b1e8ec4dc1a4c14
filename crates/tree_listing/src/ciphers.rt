//! The ciphers by which names and contents are decrypted. Keys and round keys are wiped after their use.

ghost use Rattle.std.specs.Prelude.{◌≡◌, ◌↔◌, [], true, Some, IsErr, IfOk, is_some};
ghost use Rattle.fsc_keys.specs.declared.file_keys.KeyKind.TheVariants.{Contents, Names};
ghost use Rattle.fsc_keys.specs.Keys.{key_bytes, key_kind};
ghost use Rattle.data_crypt.specs.Ciphers.{cipher_seal, seal_by};
ghost use Rattle.tree_listing.specs.DrawnKeys.{name_under, seal_in};

use crate::reader::{Reader, start_in, unit_in};
use data_crypt::FileCipher;
use fsc_keys::{FileKey, KeyKind};
use name_crypt::{Aes256, NameCipher, NotPlain, Plain, StoredName};
use policy_ctx::CONTEXT_LEN;
use xts_mode::XtsKey;

// Returns the name of a stored one in the directory of this number and context, or the target of the
// link. It is an error exactly if the first byte is decrypted to NUL.
pub(crate) fn decrypted_word(
    reader: &Reader<'_>,
    context: &[u8; CONTEXT_LEN],
    number: u32,
    stored: &StoredName,
) -> Result<Plain, NotPlain>
    ensures value { IfOk result (λ name. name ≡ name_under reader.now context.now number stored.now) }
    ensures not_plain { IsErr result ↔ (name_under reader.now context.now number stored.now ≡ []) }
{
    let mut cipher = NameCipher {
        key: Aes256::zeros(),
        start: start_in(number, context),
    };
    let mut key = FileKey::zeros(KeyKind::Names);
    reader.write_key(context, &mut key);
    set_names_key(&mut cipher.key, &key);
    key.wipe();
    let name = cipher.decrypt(stored);
    cipher.wipe();
    name
}

// Makes the round keys of a names key in place.
fn set_names_key(cipher: &mut Aes256, key: &FileKey)
    requires { key_kind key.now ≡ Names }
    ensures { cipher.new ≡ key_bytes key.now }
{
    match key {
        FileKey::Names(bytes) => cipher.set(bytes),
        FileKey::Contents(_) => unreachable!(),
    }
}

// Makes the round keys of the file of this number and context in place.
pub(crate) fn fill(
    cipher: &mut Option<FileCipher>,
    reader: &Reader<'_>,
    context: &[u8; CONTEXT_LEN],
    number: u32,
)
    requires { is_some cipher.old ≡ true }
    ensures { seal_by cipher.new ≡ Some (seal_in reader.now context.now number) }
{
    if let Some(cipher) = cipher {
        set_cipher(cipher, reader, context, number);
    }
}

fn set_cipher(
    cipher: &mut FileCipher,
    reader: &Reader<'_>,
    context: &[u8; CONTEXT_LEN],
    number: u32,
)
    ensures { cipher_seal cipher.new ≡ seal_in reader.now context.now number }
{
    let mut key = FileKey::zeros(KeyKind::Contents);
    reader.write_key(context, &mut key);
    set_contents_key(&mut cipher.key, &key);
    key.wipe();
    cipher.start = start_in(number, context);
    cipher.unit = unit_in(context);
}

// Makes the round keys of a contents key in place.
fn set_contents_key(cipher: &mut XtsKey, key: &FileKey)
    requires { key_kind key.now ≡ Contents }
    ensures { cipher.new ≡ key_bytes key.now }
{
    match key {
        FileKey::Contents(bytes) => cipher.set(bytes),
        FileKey::Names(_) => unreachable!(),
    }
}
