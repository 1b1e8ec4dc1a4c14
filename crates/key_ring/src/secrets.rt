//! The secrets as they are stored: each in a box of its own, so that no map ever moves its bytes. The bytes
//! of a secret that is removed are wiped in place.

ghost use Rattle.std.specs.Prelude.{◌≡◌, IsTrue, IsOk, OnOk, OnErr, length, replicate, option_copied};
ghost use Rattle.std.specs.FinMap as map;
ghost use Rattle.key_ring.specs.Kept.{secrets_of};

use fsc_keys::{KeyId, PreparedKey};
use std::alloc::{AllocError, Global};
use std::collections::BTreeMap;

/// Secrets by the identifiers of their keys.
pub(crate) type Secrets = BTreeMap<KeyId, Box<PreparedKey>>;

// Returns the key's secret, if it is stored.
pub(crate) fn get<'a>(secrets: &'a Secrets, id: &KeyId) -> Option<&'a PreparedKey>
    ensures { option_copied result ≡ map.get (secrets_of secrets.now.entries) id.now }
{
    match secrets.get(id) {
        Some(secret) => Some(&**secret),
        None => None,
    }
}

// Returns the secret with its bytes wiped in place.
fn wiped(mut secret: Box<PreparedKey>) -> Box<PreparedKey>
    ensures { result.value ≡ replicate (length secret.value) 0 }
{
    secret.wipe();
    secret
}

// Stores the key as the secret of the identifier. Only a key without a secret takes memory. If there is
// none, the key is wiped.
pub(crate) fn keep(
    secrets: &mut Secrets,
    alloc: Global,
    id: KeyId,
    key: PreparedKey,
) -> Result<(), AllocError>
    ensures taken { OnOk result
        (secrets_of secrets.new.entries ≡ map.insert (secrets_of secrets.old.entries) id key) }
    ensures kept { OnErr result (secrets_of secrets.new.entries ≡ secrets_of secrets.old.entries) }
    ensures held { IsTrue (map.contains_key (secrets_of secrets.old.entries) id) → IsOk result }
{
    if let Some(kept) = secrets.get_mut(&id) {
        kept.wipe();
        **kept = key;
        return Ok(());
    }
    let secret = match Box::new(alloc, key) {
        Ok(secret) => secret,
        Err(mut refused) => {
            refused.value.wipe();
            return Err(AllocError);
        }
    };
    match secrets.insert(id, secret) {
        Ok(_) => Ok(()),
        Err(refused) => {
            let (_, secret) = refused.value;
            let _zeros = wiped(secret);
            Err(AllocError)
        }
    }
}

// Wipes the secret of the identifier, and drops it.
pub(crate) fn forget(secrets: &mut Secrets, id: &KeyId)
    ensures { secrets_of secrets.new.entries ≡ map.remove (secrets_of secrets.old.entries) id.now }
{
    if let Some(secret) = secrets.remove(id) {
        let _zeros = wiped(secret);
    }
}
