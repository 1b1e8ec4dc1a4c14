//! What the arguments of a command mean.

ghost use Rattle.std.specs.Prelude.{◌≡◌, IfOk, replicate};
ghost use Rattle.fsc_commands.specs.References as spec;

use fsc_keys::{KeyId, key_id};
use item_list::Bytes;
use policy_ctx::{Policy, Unit};
use script_lang::{KeyRef, Settings};
use std::alloc::{AllocError, Global};

/// Returns the identifier that a key's reference means. Raw bytes mean their own.
pub fn id_of_ref(key: &KeyRef) -> KeyId
    ensures { result ≡ spec.id_of_ref key.now }
{
    match key {
        KeyRef::Id(id) => *id,
        KeyRef::Raw(raw) => key_id(raw),
    }
}

// Returns the policy of this key with the given settings. Each node has keys of its own.
pub(crate) fn policy_with_settings(id: KeyId, settings: Settings) -> Policy
    ensures { result ≡ spec.policy_with_settings id settings }
{
    Policy {
        pad: settings.pad,
        unit: unit_or_block(settings.unit),
        by_mode: false,
        id,
    }
}

fn unit_or_block(unit: Option<Unit>) -> Unit
    ensures { result ≡ spec.unit_or_block unit }
{
    match unit {
        Some(unit) => unit,
        None => Unit::Block,
    }
}

pub(crate) fn number_or_zero(number: Option<u32>) -> u32
    ensures { result ≡ spec.number_or_zero number }
{
    match number {
        Some(number) => number,
        None => 0,
    }
}

// Returns `len` bytes of this value.
pub(crate) fn filled(alloc: Global, len: u32, byte: u8) -> Result<Bytes, AllocError>
    ensures { IfOk result (λ bytes. bytes ≡ replicate len byte) }
{
    Ok(Bytes::from_vec(vec![in alloc; byte; len as usize]?))
}
