//! The words for secrets.

ghost use Rattle.std.specs.Prelude.{◌≡◌, IfOk};
ghost use Rattle.std.specs.Option.{option_map};
ghost use Rattle.script_words.specs.CostWords as cost_words;
ghost use Rattle.script_words.specs.NewSecrets as new_secrets;
ghost use Rattle.script_words.specs.Secrets as spec;

use crate::places::place_of;
use crate::secrets::{AllowedCosts, NewSecret, Secret};
use crate::word::read_word;
use argon_kdf::Costs;
use std::alloc::{AllocError, Global};
use text_words::{decimal_value, hex_bytes};

/// Returns the secret that the word spells, if it spells one.
pub fn read_secret(alloc: Global, word: &[u8]) -> Result<Option<Secret>, AllocError>
    ensures { IfOk result (λ secret. secret ≡ spec.secret_of word.now) }
{
    if word.starts_with(b"raw:") {
        return Ok(read_raw(&word[4..]).map(Secret::Raw));
    }
    if word.starts_with(b"pass:") {
        return Ok(read_word(alloc, &word[5..])?.map(Secret::Pass));
    }
    Ok(None)
}

/// Returns the new secret that the word spells, if it spells one.
pub fn read_new_secret(alloc: Global, word: &[u8]) -> Result<Option<NewSecret>, AllocError>
    ensures { IfOk result (λ secret. secret ≡ new_secrets.new_secret_of word.now) }
{
    if word.starts_with(b"raw:") {
        return Ok(read_raw(&word[4..]).map(NewSecret::Raw));
    }
    if word.starts_with(b"pass:") {
        return read_stretched(alloc, &word[5..]);
    }
    Ok(None)
}

fn read_raw(digits: &[u8]) -> Option<[u8; 32]>
    ensures { result ≡ spec.raw_secret_of digits.now }
{
    hex_bytes(digits)
}

// Costs, and the passphrase after them.
fn read_stretched(alloc: Global, text: &[u8]) -> Result<Option<NewSecret>, AllocError>
    ensures { IfOk result (λ secret. secret ≡ new_secrets.stretched_of text.now) }
{
    let Some((passes, text)) = number_and_rest(text) else {
        return Ok(None);
    };
    let Some((kib, text)) = number_and_rest(text) else {
        return Ok(None);
    };
    let Some((lanes, text)) = number_and_rest(text) else {
        return Ok(None);
    };
    let Some(costs) = allowed_costs(passes, kib, lanes) else {
        return Ok(None);
    };
    read_behind_costs(alloc, costs, text)
}

// The passphrase after costs.
fn read_behind_costs(
    alloc: Global,
    costs: AllowedCosts,
    text: &[u8],
) -> Result<Option<NewSecret>, AllocError>
    ensures { IfOk result (λ secret. secret ≡ new_secrets.after_costs costs text.now) }
{
    let passphrase = read_word(alloc, text)?;
    Ok(passphrase.map(|passphrase| NewSecret::Pass { costs, passphrase }))
}

// The costs, if they are in their ranges.
fn allowed_costs(passes: u32, kib: u32, lanes: u32) -> Option<AllowedCosts>
    ensures { result ≡ cost_words.costs_of passes kib lanes }
{
    AllowedCosts::new(Costs { passes, kib, lanes }).ok()
}

// A number before the first `:`, and the text after it.
fn number_and_rest(text: &[u8]) -> Option<(u32, &[u8])>
    ensures { option_map (λ x. (x.0, x.1.now)) result ≡ cost_words.number_and_rest text.now }
{
    let end = place_of(text, b':');
    if end >= text.len() {
        return None;
    }
    let number = decimal_value(&text[..end])?;
    Some((number, &text[end + 1..]))
}
