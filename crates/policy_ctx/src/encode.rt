//! From policies and contexts to their bytes, and the values that can be read from a context without
//! decoding it.

ghost use Rattle.std.specs.Prelude.{◌≡◌, length};
ghost use Rattle.policy_ctx.specs.Context as spec;
ghost use Rattle.policy_ctx.specs.Context.{context_bytes, is_by_mode_in};
ghost use Rattle.policy_ctx.specs.Policy.{flags_of, policy_bytes};

use super::{
    CONTENTS_MODE, CONTEXT_LEN, Context, KeyId, NAMES_MODE, POLICY_LEN, Pad, Policy, VERSION,
};

/// The flag of policies whose nodes share a key for each mode: IV_INO_LBLK_64.
const BY_MODE: u8 = 8;

/// Returns the bytes of the policy.
pub fn encode_policy(policy: &Policy) -> [u8; POLICY_LEN]
    ensures { result ≡ policy_bytes policy.now }
{
    let mut bytes = [0; POLICY_LEN];
    bytes[0] = VERSION;
    bytes[1] = CONTENTS_MODE;
    bytes[2] = NAMES_MODE;
    bytes[3] = flags_byte(policy.pad, policy.by_mode);
    bytes[4] = policy.unit.log2();
    bytes[8..].copy_from_slice(&policy.id.0);
    bytes
}

/// Returns the bytes of the context: those of its policy, and the nonce.
pub fn encode_context(context: &Context) -> [u8; CONTEXT_LEN]
    ensures { result ≡ context_bytes context.now }
{
    let mut bytes = [0; CONTEXT_LEN];
    bytes[..POLICY_LEN].copy_from_slice(&encode_policy(&context.policy));
    bytes[POLICY_LEN..].copy_from_slice(&context.nonce);
    bytes
}

/// Returns the identifier of the key that the bytes of a context name.
pub fn id_in(context: &[u8; CONTEXT_LEN]) -> KeyId
    ensures read { result ≡ spec.id_in context.now }
    ensures of_context { (c : Context) → length c.policy.id.0 ≡ 16 → context.now ≡ context_bytes c
        → result ≡ c.policy.id }
{
    let mut id = [0; 16];
    id.copy_from_slice(&context[8..POLICY_LEN]);
    KeyId(id)
}

/// Returns whether the bytes of a context have the flag of policies whose nodes share a key for each
/// mode.
pub fn is_by_mode(context: &[u8; CONTEXT_LEN]) -> bool
    ensures read { result ≡ is_by_mode_in context.now }
    ensures of_context { (c : Context) → context.now ≡ context_bytes c → result ≡ c.policy.by_mode }
{
    context[3] & BY_MODE != 0
}

fn flags_byte(pad: Pad, by_mode: bool) -> u8
    ensures { result ≡ flags_of pad by_mode }
{
    let padding = match pad {
        Pad::P4 => 0,
        Pad::P8 => 1,
        Pad::P16 => 2,
        Pad::P32 => 3,
    };
    if by_mode { padding + BY_MODE } else { padding }
}
