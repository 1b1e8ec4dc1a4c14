//! From bytes to policies and contexts, or to the first fault.

ghost use Rattle.std.specs.Prelude.{◌≡◌, ◌≤◌, length, take, None, Some, IsOk};
ghost use Rattle.std.specs.Prelude.{IfOk, IfErr, IfSome, IfNone, true, false};
ghost use Rattle.policy_ctx.specs.Context.{HasSizes, context_bytes, context_fault};
ghost use Rattle.policy_ctx.specs.Policy.{flags_of, policy_bytes, unit_log2};
ghost use Rattle.policy_ctx.specs.PolicyFaults.{are_flags, header_fault, is_unit_log2, policy_fault};

use super::{
    CONTENTS_MODE, CONTEXT_LEN, Context, CtxFault, KeyId, NAMES_MODE, POLICY_LEN, Pad, Policy,
    Unit, VERSION,
};

/// Returns the policy whose bytes these are: 24 of them. If they are no policy, returns their first
/// fault.
pub fn decode_policy(bytes: &[u8]) -> Result<Policy, CtxFault>
    ensures found { IfOk result (λ p. bytes.now ≡ policy_bytes p) }
    ensures sized { IfOk result (λ p. length p.id.0 ≡ 16) }
    ensures every { (p : Policy) → length p.id.0 ≡ 16 → bytes.now ≡ policy_bytes p → result ≡ Ok p }
    ensures fault { IfErr result (λ f. policy_fault bytes.now ≡ Some f) }
    ensures faultless { IsOk result → policy_fault bytes.now ≡ None }
{
    if bytes.len() != POLICY_LEN {
        return Err(CtxFault::Length);
    }
    read_policy(bytes)
}

/// Returns the context whose bytes these are: 40 of them. If they are no context, returns their first
/// fault.
pub fn decode_context(bytes: &[u8]) -> Result<Context, CtxFault>
    ensures found { IfOk result (λ c. bytes.now ≡ context_bytes c) }
    ensures sized { IfOk result HasSizes }
    ensures every { (c : Context) → HasSizes c → bytes.now ≡ context_bytes c → result ≡ Ok c }
    ensures fault { IfErr result (λ f. context_fault bytes.now ≡ Some f) }
    ensures faultless { IsOk result → context_fault bytes.now ≡ None }
{
    if bytes.len() != CONTEXT_LEN {
        return Err(CtxFault::Length);
    }
    let policy = read_policy(bytes)?;
    let mut nonce = [0; 16];
    nonce.copy_from_slice(&bytes[POLICY_LEN..]);
    Ok(Context { policy, nonce })
}

// Returns the policy whose bytes the first 24 are, or the first fault among these.
fn read_policy(bytes: &[u8]) -> Result<Policy, CtxFault>
    requires { 24 ≤ length bytes.now }
    ensures found { IfOk result (λ p. take 24 bytes.now ≡ policy_bytes p) }
    ensures sized { IfOk result (λ p. length p.id.0 ≡ 16) }
    ensures fault { IfErr result (λ f. header_fault bytes.now ≡ Some f) }
    ensures faultless { IsOk result → header_fault bytes.now ≡ None }
{
    if bytes[0] != VERSION {
        return Err(CtxFault::Version);
    }
    if bytes[1] != CONTENTS_MODE || bytes[2] != NAMES_MODE {
        return Err(CtxFault::Modes);
    }
    let Some((pad, by_mode)) = flags_of_byte(bytes[3]) else {
        return Err(CtxFault::Flags);
    };
    let Some(unit) = unit_of_log(bytes[4]) else {
        return Err(CtxFault::Unit);
    };
    if bytes[5] != 0 || bytes[6] != 0 || bytes[7] != 0 {
        return Err(CtxFault::Reserved);
    }
    let mut id = [0; 16];
    id.copy_from_slice(&bytes[8..POLICY_LEN]);
    Ok(Policy {
        pad,
        unit,
        by_mode,
        id: KeyId(id),
    })
}

// The padding in the flags byte, and whether flag 8 is set: a byte of 0 to 3, or of 8 to 11.
fn flags_of_byte(flags: u8) -> Option<(Pad, bool)>
    ensures found { IfSome result (λ told. flags_of told.0 told.1 ≡ flags) }
    ensures fits { IfSome result (λ _. are_flags flags ≡ true) }
    ensures none { IfNone result (are_flags flags ≡ false) }
{
    match flags {
        0 => Some((Pad::P4, false)),
        1 => Some((Pad::P8, false)),
        2 => Some((Pad::P16, false)),
        3 => Some((Pad::P32, false)),
        8 => Some((Pad::P4, true)),
        9 => Some((Pad::P8, true)),
        10 => Some((Pad::P16, true)),
        11 => Some((Pad::P32, true)),
        _ => None,
    }
}

// The unit of the byte: a byte of 0, or of 9 to 12.
fn unit_of_log(log: u8) -> Option<Unit>
    ensures found { IfSome result (λ unit. unit_log2 unit ≡ log) }
    ensures fits { IfSome result (λ _. is_unit_log2 log ≡ true) }
    ensures none { IfNone result (is_unit_log2 log ≡ false) }
{
    Unit::of_log2(u32::from(log))
}
