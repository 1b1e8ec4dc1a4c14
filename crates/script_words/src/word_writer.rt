//! The writer of words. Each function appends a space to a text, and then the word. After an error the
//! text may have a part of it.

ghost use Rattle.std.specs.Prelude.{◌≡◌, ◌<◌, ◌++◌, ◌∷◌, OnOk};
ghost use Rattle.hex.specs.Hex.{encode_lower};
ghost use Rattle.text_words.specs.Numbers.{decimal_of};
ghost use Rattle.script_words.specs.Keys.{key_ref_text, hex_or_none_text};
ghost use Rattle.script_words.specs.Records.{record_name};
ghost use Rattle.script_words.specs.Secrets.{secret_text};
ghost use Rattle.script_words.specs.NewSecrets.{new_secret_text};
ghost use Rattle.script_words.specs.CostWords.{costs_text, cost_text};
ghost use Rattle.script_words.specs.Word.{word_text};
ghost use Rattle.script_words.specs.PathText.{path_text};

use crate::key_words::KeyRef;
use crate::path::{ScriptPath, write_path};
use crate::record_words::Record;
use crate::secrets::{NewSecret, Secret};
use crate::word::write_word;
use argon_kdf::Costs;
use short_bytes::Label;
use std::alloc::{AllocError, Global};
use text_words::{push_decimal, push_lower_hex};

// Appends a space, and a text after it.
fn push_text(text: &mut Vec<u8>, word: &[u8]) -> Result<(), AllocError>
    ensures { OnOk result (text.new.items ≡ text.old.items ++ 32 ∷ word.now) }
{
    text.push(b' ')?;
    text.extend_from_slice(word)
}

/// Appends a number below 2^32, as its decimal numeral.
pub fn push_number(text: &mut Vec<u8>, number: u32) -> Result<(), AllocError>
    ensures { OnOk result (text.new.items ≡ text.old.items ++ 32 ∷ decimal_of number) }
{
    text.push(b' ')?;
    push_decimal(text, u64::from(number))
}

/// Appends bytes in lower-case digits.
pub fn push_hex(text: &mut Vec<u8>, bytes: &[u8]) -> Result<(), AllocError>
    ensures { OnOk result (text.new.items ≡ text.old.items ++ 32 ∷ encode_lower bytes.now) }
{
    text.push(b' ')?;
    push_lower_hex(text, bytes)
}

/// Appends the digits of the bytes, or `-` for none.
pub fn push_hex_or_none(text: &mut Vec<u8>, bytes: &[u8]) -> Result<(), AllocError>
    ensures { OnOk result (text.new.items ≡ text.old.items ++ 32 ∷ hex_or_none_text bytes.now) }
{
    if bytes.len() >= 1 {
        push_hex(text, bytes)
    } else {
        push_text(text, b"-")
    }
}

/// Appends a label, as it is.
pub fn push_label(text: &mut Vec<u8>, label: &Label) -> Result<(), AllocError>
    ensures { OnOk result (text.new.items ≡ text.old.items ++ 32 ∷ label.now) }
{
    push_text(text, label.bytes())
}

/// Appends bytes as a word.
pub fn push_word(alloc: Global, text: &mut Vec<u8>, bytes: &[u8]) -> Result<(), AllocError>
    ensures { OnOk result (text.new.items ≡ text.old.items ++ 32 ∷ word_text bytes.now) }
{
    let word = write_word(alloc, bytes)?;
    push_text(text, word.as_bytes())
}

/// Appends a path.
pub fn push_path(alloc: Global, text: &mut Vec<u8>, path: &ScriptPath) -> Result<(), AllocError>
    ensures { OnOk result (text.new.items ≡ text.old.items ++ 32 ∷ path_text path.now) }
{
    let word = write_path(alloc, path)?;
    push_text(text, word.as_bytes())
}

/// Appends a key.
pub fn push_key(text: &mut Vec<u8>, key: &KeyRef) -> Result<(), AllocError>
    ensures { OnOk result (text.new.items ≡ text.old.items ++ 32 ∷ key_ref_text key.now) }
{
    match key {
        KeyRef::Id(id) => {
            push_text(text, b"id:")?;
            push_lower_hex(text, &id.0)
        }
        KeyRef::Raw(raw) => {
            push_text(text, b"raw:")?;
            push_lower_hex(text, raw.bytes())
        }
    }
}

/// Appends a record.
pub fn push_record(text: &mut Vec<u8>, record: &Record) -> Result<(), AllocError>
    ensures { OnOk result (text.new.items ≡ text.old.items ++ 32 ∷ record_name «record».now) }
{
    match record {
        Record::Protector(label) => {
            push_text(text, b"protector/")?;
            text.extend_from_slice(label.bytes())
        }
        Record::Policy(label) => {
            push_text(text, b"policy/")?;
            text.extend_from_slice(label.bytes())
        }
    }
}

/// Appends a secret.
pub fn push_secret(alloc: Global, text: &mut Vec<u8>, secret: &Secret) -> Result<(), AllocError>
    ensures { OnOk result (text.new.items ≡ text.old.items ++ 32 ∷ secret_text secret.now) }
{
    match secret {
        Secret::Raw(raw) => {
            push_text(text, b"raw:")?;
            push_lower_hex(text, raw)
        }
        Secret::Pass(passphrase) => {
            let word = write_word(alloc, passphrase.as_slice())?;
            push_text(text, b"pass:")?;
            text.extend_from_slice(word.as_bytes())
        }
    }
}

/// Appends a new secret.
pub fn push_new_secret(
    alloc: Global,
    text: &mut Vec<u8>,
    secret: &NewSecret,
) -> Result<(), AllocError>
    ensures { OnOk result (text.new.items ≡ text.old.items ++ 32 ∷ new_secret_text secret.now) }
{
    match secret {
        NewSecret::Raw(raw) => {
            push_text(text, b"raw:")?;
            push_lower_hex(text, raw)
        }
        NewSecret::Pass { costs, passphrase } => {
            let word = write_word(alloc, passphrase.as_slice())?;
            push_text(text, b"pass:")?;
            append_costs(text, &costs.costs())?;
            text.extend_from_slice(word.as_bytes())
        }
    }
}

// Three numbers, each before a `:`.
fn append_costs(text: &mut Vec<u8>, costs: &Costs) -> Result<(), AllocError>
    ensures { OnOk result (text.new.items ≡ text.old.items ++ costs_text costs.now) }
{
    append_cost(text, costs.passes)?;
    append_cost(text, costs.kib)?;
    append_cost(text, costs.lanes)
}

fn append_cost(text: &mut Vec<u8>, cost: u32) -> Result<(), AllocError>
    ensures { OnOk result (text.new.items ≡ text.old.items ++ cost_text cost) }
{
    push_decimal(text, u64::from(cost))?;
    text.extend_from_slice(b":")
}
