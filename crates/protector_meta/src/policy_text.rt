//! The text of a policy's record, written.

ghost use Rattle.std.specs.Prelude.{◌≡◌, ◌++◌, ◌∷◌, [], IfOk, OnOk};
ghost use Rattle.std.specs.List.{All, flat_map};
ghost use Rattle.byte_words.specs.Bytes.{AreBytes};
ghost use Rattle.hex.specs.Hex.{encode_lower};
ghost use Rattle.text_words.specs.Lines.{ended};
ghost use Rattle.protector_meta.specs.PolicyText as spec;
ghost use Rattle.protector_meta.specs.PolicyText.{option_lines, policy_text, wrap_line};
ghost use Rattle.protector_meta.specs.PolicyRecords.{IsPolicyFile, IsWrap};

use crate::lines::{push_digits_line, push_line};
use crate::policy_file::{Options, PolicyFile};
use crate::wraps::Wrap;
use item_list::Bytes;
use std::alloc::{AllocError, Global};
use text_words::{push_decimal, push_lower_hex};

/// The first line of a record of version 1.
pub(crate) const HEAD: &[u8] = b"fsc-policy 1";

/// The first line of a record of version 2, which has options.
pub(crate) const HEAD_WITH_OPTIONS: &[u8] = b"fsc-policy 2";

/// Returns the text of a policy's record. Its type guarantees all that a record needs, so each policy has
/// one. The only error is out of memory.
pub fn encode_policy_file(alloc: Global, policy: &PolicyFile) -> Result<Bytes, AllocError>
    ensures text { IfOk result (λ text. text ≡ policy_text policy.now) }
    ensures in_form { OnOk result (IsPolicyFile policy.now) }
{
    let mut text = Vec::new(alloc);
    push_line(&mut text, version_line(&policy.options), b"")?;
    push_line(&mut text, b"name ", policy.name.bytes())?;
    push_digits_line(&mut text, b"id ", &policy.id.0)?;
    push_options(&mut text, &policy.options)?;
    push_wraps(&mut text, policy.wraps.as_slice())?;
    Ok(Bytes::from_vec(text))
}

fn version_line(options: &Option<Options>) -> &'static [u8]
    ensures { result.now ≡ spec.version_line options.now }
{
    match options {
        None => HEAD,
        Some(_) => HEAD_WITH_OPTIONS,
    }
}

// Writes the line of the options, if there are any.
fn push_options(text: &mut Vec<u8>, options: &Option<Options>) -> Result<(), AllocError>
    ensures { OnOk result (text.new.items ≡ text.old.items ++ ended (option_lines options.now)) }
{
    let Some(options) = *options else {
        return Ok(());
    };
    text.extend_from_slice(b"options ")?;
    push_decimal(text, options.pad.size() as u64)?;
    text.push(b' ')?;
    push_decimal(text, u64::from(options.unit.log2()))?;
    text.push(b'\n')?;
    Ok(())
}

// Writes the line of each wrap.
fn push_wraps(text: &mut Vec<u8>, wraps: &[Wrap]) -> Result<(), AllocError>
    ensures lines { OnOk result (text.new.items ≡ text.old.items
        ++ flat_map (λ wrap. wrap_line wrap ++ 10 ∷ []) wraps.now) }
    ensures in_form { OnOk result (All IsWrap wraps.now) }
{
    'wraps: for wrap in wraps {
        push_wrap(text, wrap)?;
    }
    Ok(())
}

// Writes the line of a wrap.
fn push_wrap(text: &mut Vec<u8>, wrap: &Wrap) -> Result<(), AllocError>
    ensures line { OnOk result (text.new.items ≡ text.old.items ++ (wrap_line wrap.now ++ 10 ∷ [])) }
    ensures in_form { OnOk result (IsWrap wrap.now) }
{
    text.extend_from_slice(b"wrap ")?;
    text.extend_from_slice(wrap.protector.bytes())?;
    push_digit_word(text, &wrap.iv)?;
    push_digit_word(text, &wrap.key)?;
    push_digit_word(text, &wrap.tag)?;
    text.push(b'\n')?;
    Ok(())
}

// Writes a space, and two digits for each byte.
fn push_digit_word(text: &mut Vec<u8>, bytes: &[u8]) -> Result<(), AllocError>
    ensures word { OnOk result (text.new.items ≡ text.old.items ++ 32 ∷ encode_lower bytes.now) }
    ensures in_form { OnOk result (AreBytes bytes.now) }
{
    text.extend_from_slice(b" ")?;
    push_lower_hex(text, bytes)
}
