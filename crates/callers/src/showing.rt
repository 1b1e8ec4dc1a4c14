//! A caller of `name_crypt`.

ghost use Rattle.std.specs.Prelude.{◌≡◌, ◌+◌, ◌<◌, ◌≤◌, ◌↔◌, ◌⊎◌, length, Contains};
ghost use Rattle.std.specs.Prelude.{IsOk, IfOk, IsErrOf};
ghost use Rattle.name_crypt.specs.declared.limits.TheConstants.{MAX_NAME_BYTES};
ghost use Rattle.name_crypt.specs.Plain.{IsPlain};
ghost use Rattle.name_crypt.specs.StoredName.{stored_name};
ghost use Rattle.name_crypt.specs.NoKeyText.{nokey_text_of};

use name_crypt::{NameCipher, NoKeyText, Plain, PlainFault, Steps, nokey_text};
use policy_ctx::Pad;
use std::sync::ledger::Ledger;

/// Returns the no-key text of a name: a directory shows it if its key is absent. Returns the error of
/// `Plain::read` exactly when that has one.
pub fn visible_name_of<L: Ledger>(
    key: &[u8; 32],
    pad: Pad,
    name: &[u8],
    steps: &mut Steps<L>,
) -> Result<NoKeyText, PlainFault>
    ensures value { IfOk result (λ text. text ≡ nokey_text_of (stored_name key.now 0 pad name.now)) }
    ensures plain { IsOk result ↔ IsPlain name.now }
    ensures length { IsErrOf result PlainFault.Length
        ↔ ((length name.now ≡ 0) ⊎ (MAX_NAME_BYTES < length name.now)) }
    ensures nul { IsErrOf result PlainFault.Nul ↔ ((1 ≤ length name.now)
        × (length name.now ≤ MAX_NAME_BYTES) × Contains name.now 0) }
    ensures ticks { steps.new ≤ steps.old + 1 }
{
    let name = Plain::read(name)?;
    let stored = NameCipher::new(key, 0).encrypt(pad, &name, steps);
    Ok(nokey_text(&stored))
}
