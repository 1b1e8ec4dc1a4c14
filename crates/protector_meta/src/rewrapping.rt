//! Wrapping a protector's key again.

ghost use Rattle.std.specs.Prelude.{◌≡◌, Some};
ghost use Rattle.key_wrap.specs.Wrapping.{opened_secret};
ghost use Rattle.protector_meta.specs.Rewrapped.{rewrapped_protector};

use crate::protector::{Protector, ProtectorKind};
use key_wrap::{unwrapping_undoes_wrapping, wrap};

/// Wraps the protector's key under another wrapping key, for example when its passphrase changes. `kind`
/// says where that wrapping key comes from. The iv must not have been used with that wrapping key before.
/// The name and the descriptor stay, so `key` must be the protector's key.
pub fn rewrap(
    protector: &mut Protector,
    kind: ProtectorKind,
    key: &[u8; 32],
    wrapping: &[u8; 32],
    iv: &[u8; 16],
)
    ensures whole { protector.new ≡ rewrapped_protector protector.old kind wrapping.now iv.now key.now }
    ensures opens { opened_secret wrapping.now protector.new.iv protector.new.key protector.new.tag
        ≡ Some key.now }
{
    let mut wrapped = [0; 32];
    protector.tag = wrap(wrapping, iv, key, &mut wrapped);
    protector.key = wrapped;
    protector.iv = *iv;
    protector.kind = kind;
    // Only this law says that the record opens.
    unwrapping_undoes_wrapping();
}
