//! Names in their stored form, and whether two of them would differ only by what the key reveals.

ghost use Rattle.std.specs.Prelude.{◌≡◌, ◌+◌, ◌≤◌, false, true, Some, is_some, option_copied};
ghost use Rattle.byte_words.specs.Bytes.{AreBytes};
ghost use Rattle.name_crypt.specs.Plain.{IsPlain};
ghost use Rattle.name_crypt.specs.StoredName.{stored_name};
ghost use Rattle.plain_tree.specs.Nodes.{Name};
ghost use Rattle.plain_tree.specs.NodesByNumber.{context_at, entry};
ghost use Rattle.policy_ctx.specs.declared.policy.Context.{Context};
ghost use Rattle.mount_model.specs.EncryptedNames as plain;
ghost use Rattle.mount_model.specs.PlainMount.{PlainMount};
ghost use Rattle.mount_model.specs.Sealed.{node_start};
ghost use Rattle.mount_model.specs.States.{is_keyed};
ghost use Rattle.mount_state.specs.Represents.{Represents};
ghost use Rattle.mount_state.specs.Stored.{stored_form};
ghost use Rattle.mount_names.specs.NewPlaces.{HasByteKey};
ghost use Rattle.mount_names.specs.Places.{IsBlank};
ghost use Rattle.mount_names.specs.Sealing.{SealsAs, SealsByBytes};
ghost use Rattle.mount_names.specs.VisibleNames.{HasNames};

use crate::ciphers::cipher_of;
use mount_state::{MountState, start_of};
use name_crypt::{
    Aes256, MAX_NAME_BYTES, MAX_SPELLED_BYTES, NameCipher, Plain, Steps, StoredName, encrypt_into,
    name_iv, names_come_back, nokey_text, texts_stay_distinct,
};
use policy_ctx::{Context, Pad};
use short_bytes::Filled;
use std::sync::ledger::Ledger;

/// A buffer for the longest stored name.
pub(crate) type NameBuffer = [u8; MAX_NAME_BYTES];

// Returns the stored form of the name in the directory, or of the target of the symlink: the name itself if
// the node has no context, else its encryption, in the buffer. `None` if the key is not available.
pub(crate) fn stored_as<'a, L: Ledger>(
    state: &MountState,
    number: u32,
    context: &Option<Context>,
    name: &'a [u8],
    room: &'a mut NameBuffer,
    steps: &mut Steps<L>,
) -> Option<&'a [u8]>
    requires plain { IsPlain name.now }
    requires blank { IsBlank room.old }
    ensures value { (m : PlainMount) → Represents state.now m → HasNames m number
        → context.now ≡ context_at m.nodes number → is_keyed m number ≡ true
        → option_copied result ≡ Some (stored_form m.raws number context.now name.now) }
    ensures ranged { (m : PlainMount) → Represents state.now m → HasNames m number
        → context.now ≡ context_at m.nodes number → is_keyed m number ≡ true → HasByteKey m number }
    ensures ticks { steps.new ≤ steps.old + 1 }
{
    let Some(context) = context else {
        return Some(name);
    };
    match state.own_cipher(number, context) {
        Some(cipher) => Some(sealed(cipher, number, context, name, room, steps)),
        None => sealed_again(state, number, context, name, room, steps),
    }
}

// The same under this context, by a cipher that is made for this call alone. Separate from the path with a
// cached cipher, which so reserves no stack space for round keys.
#[inline(never)]
fn sealed_again<'a, L: Ledger>(
    state: &MountState,
    number: u32,
    context: &Context,
    name: &[u8],
    room: &'a mut NameBuffer,
    steps: &mut Steps<L>,
) -> Option<&'a [u8]>
    requires plain { IsPlain name.now }
    requires blank { IsBlank room.old }
    ensures value { SealsAs state.now number context.now name.now (option_copied result) }
    ensures ranged { SealsByBytes state.now number context.now }
    ensures ticks { steps.new ≤ steps.old + 1 }
{
    let mut made = cipher_of(state, number, context)?;
    let stored = sealed(&made.key, number, context, name, room, steps);
    made.wipe();
    Some(stored)
}

// The name of the node under the cipher of its names. `steps` counts one more.
fn sealed<'a, L: Ledger>(
    cipher: &Aes256,
    number: u32,
    context: &Context,
    name: &[u8],
    room: &'a mut NameBuffer,
    steps: &mut Steps<L>,
) -> &'a [u8]
    requires plain { IsPlain name.now }
    requires blank { IsBlank room.old }
    ensures value { result.now
        ≡ stored_name cipher.now (node_start number context.now) context.now.policy.pad name.now }
    ensures tick { steps.new ≡ steps.old + 1 }
{
    let iv = name_iv(start_of(number, context));
    let len = encrypt_into(cipher, iv, context.policy.pad, name, room, steps);
    &room[..len]
}

// The name under the cipher. `steps` counts one more.
pub(crate) fn encrypt_stored_name<L: Ledger>(
    cipher: &NameCipher,
    pad: Pad,
    name: &Plain,
    steps: &mut Steps<L>,
) -> Filled<MAX_NAME_BYTES>
    ensures value { result ≡ stored_name cipher.now.key cipher.now.start pad name.now }
    ensures tick { steps.new ≡ steps.old + 1 }
{
    Filled::of(cipher.encrypt(pad, name, steps).bytes())
}

// Whether a name in the directory, which has a policy, has the no-key text of this stored one, which isn't
// there itself. A text that spells the whole stored name is no other name's, and then no name is read.
pub(crate) fn shares_text(state: &MountState, dir: u32, stored: &[u8]) -> bool
    ensures { (m : PlainMount) (c : Context) (name : Name) → Represents state.now m
        → context_at m.nodes dir ≡ Some c → HasByteKey m dir → IsPlain name → AreBytes name
        → stored.now ≡ stored_form m.raws dir (context_at m.nodes dir) name
        → is_some (entry m.nodes dir name) ≡ false → result ≡ plain.clashes m dir name }
{
    // That short texts are distinct, and that each stored name has 16 to 255 bytes.
    texts_stay_distinct();
    names_come_back();
    if stored.len() <= MAX_SPELLED_BYTES {
        return false;
    }
    shares_long_text(state, dir, stored)
}

// The same of a stored name of more bytes. Not inlined: the usual path would reserve stack space for it.
#[inline(never)]
fn shares_long_text(state: &MountState, dir: u32, stored: &[u8]) -> bool
    ensures { (m : PlainMount) (c : Context) (name : Name) → Represents state.now m
        → context_at m.nodes dir ≡ Some c → IsPlain name → AreBytes name
        → stored.now ≡ stored_form m.raws dir (context_at m.nodes dir) name
        → result ≡ plain.clashes m dir name }
{
    // That each stored name has 16 to 255 bytes.
    names_come_back();
    match StoredName::read(stored) {
        Ok(name) => state
            .entry_by_text(dir, nokey_text(&name).bytes())
            .is_some(),
        Err(_) => false,
    }
}
