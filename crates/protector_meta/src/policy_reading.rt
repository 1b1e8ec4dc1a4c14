//! The text of a policy's record, read.

ghost use Rattle.std.specs.Prelude.{◌≡◌, ◌≢◌, ◌<◌, ◌^◌, ◌+◌, ◌++◌, ◌∷◌, ◌⊎◌, [], Err, IfErr};
ghost use Rattle.std.specs.Prelude.{IfOk, MatchOption, None, Ok, OnOk, Some, length, ℕ};
ghost use Rattle.text_words.specs.Lines.{pieces_of};
ghost use Rattle.text_words.specs.Words.{words_of};
ghost use Rattle.protector_meta.specs.declared.fault.MetaFault.TheVariants.{Bad, NoMemory};
ghost use Rattle.protector_meta.specs.declared.wraps.Wrap.{Wrap};
ghost use Rattle.protector_meta.specs.declared.policy_file.PolicyFile.{PolicyFile};
ghost use Rattle.protector_meta.specs.RecordLines.{IsFirstBad, NamesFirstBadLine};
ghost use Rattle.protector_meta.specs.PolicyText.{policy_text};
ghost use Rattle.protector_meta.specs.PolicyRecords.{IsPolicyFile, IsPolicyRecord};
ghost use Rattle.protector_meta.specs.PolicyLines as spec;
ghost use Rattle.protector_meta.specs.WrapLines.{next_wrap, wrap_of_words, wrap_value};
ghost use Rattle.protector_meta.specs.PolicyReading.{GivesInMemory, after_id, policy_read, wraps_from};

use crate::fault::MetaFault;
use crate::lines::{ended_line, name_line_value, read_digits};
use crate::policy_file::{Options, PolicyFile};
use crate::policy_text::{HEAD, HEAD_WITH_OPTIONS};
use crate::wraps::{Wrap, WrapFault, WrapList};
use fsc_keys::KeyId;
use policy_ctx::{Pad, Unit};
use short_bytes::Label;
use std::alloc::Global;
use text_words::{
    decimal_value, lower_hex_bytes, next_line, nth_word, rest_after, two_words, word_count,
};

/// The number of the first line after the identifier: of the options, or else of the first wrap.
const FOURTH_LINE: u32 = 4;

/// Returns the policy whose record the text is. Otherwise returns the first line at fault, or `NoMemory`.
/// A line is at fault if it
/// - is not as its place requires,
/// - has the wrap of a protector that is listed before, or a seventeenth wrap,
/// - is missing, or has no line feed at its end.
pub fn decode_policy_file(alloc: Global, text: &[u8]) -> Result<PolicyFile, MetaFault>
    ensures read { GivesInMemory (λ p. p) result (policy_read text.now) }
    ensures found { IfOk result (λ p. IsPolicyFile p × (text.now ≡ policy_text p)) }
    ensures every { (p : PolicyFile) → IsPolicyFile p → text.now ≡ policy_text p
        → (result ≡ Ok p) ⊎ (result ≡ Err NoMemory) }
    ensures bad { IfErr result
        (λ fault. (fault ≡ NoMemory) ⊎ NamesFirstBadLine IsPolicyRecord text.now fault) }
    ensures only { IfErr result (λ fault. (line : ℕ) → IsFirstBad IsPolicyRecord text.now line
        → (fault ≡ NoMemory) ⊎ (fault ≡ Bad line)) }
    ensures none { (line : ℕ) (p : PolicyFile) → result ≡ Err (Bad line) → IsPolicyFile p
        → text.now ≡ policy_text p → ⊥ }
{
    read_policy(alloc, text)
}

// The policy of a record.
#[tactic(auto, unfolding(crate::specs::PolicyReading::policy_read))]
fn read_policy(alloc: Global, text: &[u8]) -> Result<PolicyFile, MetaFault>
    ensures { GivesInMemory (λ p. p) result (policy_read text.now) }
{
    let (line, rest) = ended_line(text, 1)?;
    let has_options = head_value(line).ok_or(MetaFault::Bad { line: 1 })?;
    let (line, rest) = ended_line(rest, 2)?;
    let name = name_line_value(line).ok_or(MetaFault::Bad { line: 2 })?;
    let (id, rest) = read_digits(rest, b"id ", 3)?;
    read_behind_id(alloc, has_options, name, KeyId(id), rest)
}

// The policy of the values on the first three lines, and of the lines after them: the options, if they
// have a line, and the wraps.
fn read_behind_id(
    alloc: Global,
    has_options: bool,
    name: Label,
    id: KeyId,
    text: &[u8],
) -> Result<PolicyFile, MetaFault>
    ensures { GivesInMemory (λ p. p) result (after_id has_options name id.0 text.now) }
{
    if !has_options {
        let wraps = read_wraps(alloc, text, FOURTH_LINE)?;
        return Ok(PolicyFile {
            name,
            id,
            options: None,
            wraps,
        });
    }
    let (line, rest) = ended_line(text, FOURTH_LINE)?;
    let options = options_value(line).ok_or(MetaFault::Bad { line: FOURTH_LINE })?;
    let wraps = read_wraps(alloc, rest, FOURTH_LINE + 1)?;
    Ok(PolicyFile {
        name,
        id,
        options: Some(options),
        wraps,
    })
}

// Whether the record has a line of options: the version on the first line decides.
fn head_value(line: &[u8]) -> Option<bool>
    ensures { result ≡ spec.head_value line.now }
{
    if line == HEAD {
        Some(false)
    } else if line == HEAD_WITH_OPTIONS {
        Some(true)
    } else {
        None
    }
}

// The options that a line spells.
#[tactic(auto, unfolding(crate::specs::PolicyLines::options_value))]
fn options_value(line: &[u8]) -> Option<Options>
    ensures { result ≡ spec.options_value line.now }
{
    options_of_words(rest_after(line, b"options ")?)
}

// The options that two words spell.
fn options_of_words(text: &[u8]) -> Option<Options>
    ensures { result ≡ spec.options_of_words (words_of text.now) }
{
    let (size, log) = two_words(text)?;
    let size = decimal_value(size)?;
    let log = decimal_value(log)?;
    Some(Options {
        pad: Pad::of_size(size)?,
        unit: Unit::of_log2(log)?,
    })
}

// The wraps of the last lines, of which there is at least one. The first has this number.
fn read_wraps(alloc: Global, text: &[u8], first_line: u32) -> Result<WrapList, MetaFault>
    requires { first_line < 2 ^ 31 }
    ensures { GivesInMemory (λ wraps. wraps) result (wraps_from first_line [] (pieces_of text.now)) }
{
    let (mut wraps, mut rest) = read_first_wrap(alloc, text, first_line)?;
    'lines: while !rest.is_empty() {
        let number = first_line + wraps.len() as u32;
        let line = next_line(rest);
        if !line.ended {
            return Err(MetaFault::Bad { line: number });
        }
        add_line(&mut wraps, line.bytes, number)?;
        rest = line.rest;
    }
    Ok(wraps)
}

// The list with the wrap of the first line, which has this number, and the text after the line.
fn read_first_wrap(alloc: Global, text: &[u8], number: u32) -> Result<(WrapList, &[u8]), MetaFault>
    ensures one { IfOk result (λ x. length x.0 ≡ 1) }
    ensures first { IfOk result (λ x. wraps_from number [] (pieces_of text.now)
        ≡ wraps_from (number + 1) x.0 (pieces_of x.1.now)) }
    ensures refused { IfErr result (λ fault. (fault ≡ NoMemory)
        ⊎ ((fault ≡ Bad number) × (wraps_from number [] (pieces_of text.now) ≡ Err (Bad number)))) }
{
    let line = next_line(text);
    if !line.ended {
        return Err(MetaFault::Bad { line: number });
    }
    let Some(first) = read_wrap(line.bytes) else {
        return Err(MetaFault::Bad { line: number });
    };
    let wraps = WrapList::of(alloc, first)?;
    Ok((wraps, line.rest))
}

// Adds the wrap of a line.
fn add_line(wraps: &mut WrapList, line: &[u8], number: u32) -> Result<(), MetaFault>
    ensures added { OnOk result ((wrap : Wrap) × ((next_wrap wraps.old line.now ≡ Some wrap)
        × (wraps.new ≡ wraps.old ++ wrap ∷ []))) }
    ensures refused { IfErr result (λ fault. (fault ≡ NoMemory)
        ⊎ ((fault ≡ Bad number) × (next_wrap wraps.old line.now ≡ None))) }
{
    let Some(wrap) = read_wrap(line) else {
        return Err(MetaFault::Bad { line: number });
    };
    match wraps.add(wrap) {
        Ok(()) => Ok(()),
        Err(WrapFault::NoMemory) => Err(MetaFault::NoMemory),
        Err(_) => Err(MetaFault::Bad { line: number }),
    }
}

// The wrap that a line spells.
#[tactic(auto, unfolding(crate::specs::WrapLines::wrap_value))]
fn read_wrap(line: &[u8]) -> Option<Wrap>
    ensures { result ≡ wrap_value line.now }
{
    wrap_of_words(rest_after(line, b"wrap ")?)
}

// The wrap that four words spell.
fn wrap_of_words(text: &[u8]) -> Option<Wrap>
    ensures { result ≡ wrap_of_words (words_of text.now) }
{
    let (label, iv, key, tag) = four_words(text)?;
    Some(Wrap {
        protector: Label::read(label)?,
        iv: lower_hex_bytes(iv)?,
        key: lower_hex_bytes(key)?,
        tag: lower_hex_bytes(tag)?,
    })
}

// The words of a text, if there are four.
fn four_words(text: &[u8]) -> Option<(&[u8], &[u8], &[u8], &[u8])>
    ensures { MatchOption result (length (words_of text.now) ≢ 4) (λ x.
        words_of text.now ≡ x.0.now ∷ x.1.now ∷ x.2.now ∷ x.3.now ∷ []) }
{
    if word_count(text) != 4 {
        return None;
    }
    Some((
        nth_word(text, 0)?,
        nth_word(text, 1)?,
        nth_word(text, 2)?,
        nth_word(text, 3)?,
    ))
}
