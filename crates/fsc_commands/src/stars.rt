//! What the paths of a script mean: a star is a name of the caller's last listing, by number.

ghost use Rattle.std.specs.Prelude.{◌≡◌, IfOk, slice_get};
ghost use Rattle.mount_model.specs.Carried as carried;
ghost use Rattle.script_words.specs.Path as script;
ghost use Rattle.fsc_commands.specs.Steps.{names_in};
ghost use Rattle.fsc_commands.specs.Stars as spec;
ghost use Rattle.fsc_commands.specs.Stars.{resolved_path, name_or_star};

use crate::EntryList;
use crate::known_entries::last_names;
use byte_words::slice_is_bytes;
use call_history::Entry;
use item_list::Bytes;
use mount_limits::MAX_PART_BYTES;
use mount_model::{Part, Path, Reply};
use reply_text::LoggedCall;
use script_lang::{ScriptPart, ScriptPath};
use std::alloc::{AllocError, Global};
use text_words::{may_be_part, push_decimal};

/// Returns the path that a script's path means to a caller with these entries. A mount may be asked for it.
/// A star means the name of its number, from 0, in the caller's last listing. If there is no such name, or
/// it can't be a part of a path, the star means its own text.
pub fn resolved_path(alloc: Global, told: &EntryList, path: &ScriptPath) -> Result<Path, AllocError>
    ensures value { IfOk result (λ meant. meant ≡ resolved_path (names_in told.now) path.now) }
    ensures fits { IfOk result carried.IsPath }
{
    parts_meant(alloc, told.as_slice(), path.parts())
}

// Returns the path of what each part means.
fn parts_meant(
    alloc: Global,
    told: &[(u64, Entry<LoggedCall, Reply>)],
    parts: &[ScriptPart],
) -> Result<Path, AllocError>
    requires { script.IsPath parts.now }
    ensures value { IfOk result (λ meant. meant ≡ resolved_path (names_in told.now) parts.now) }
    ensures fits { IfOk result carried.IsPath }
{
    let mut meant = Path::root(alloc);
    'parts: for part in parts {
        let bytes = resolved_part(alloc, told, part)?;
        meant.push(Part::new(bytes))?;
    }
    Ok(meant)
}

// Returns what a part means.
fn resolved_part(
    alloc: Global,
    told: &[(u64, Entry<LoggedCall, Reply>)],
    part: &ScriptPart,
) -> Result<Bytes, AllocError>
    requires { script.IsPart part.now }
    ensures value { IfOk result (λ meant. meant ≡ spec.resolved_part (names_in told.now) part.now) }
    ensures fits { IfOk result carried.IsPart }
{
    match part {
        ScriptPart::Given(bytes) => bytes.copy(alloc),
        ScriptPart::Star(number) => name_or_star(alloc, last_names(told), *number),
    }
}

// Returns what a star means.
fn name_or_star(alloc: Global, names: &[Bytes], number: u32) -> Result<Bytes, AllocError>
    ensures value { IfOk result (λ meant. meant ≡ name_or_star number (slice_get names.now number)) }
    ensures fits { IfOk result carried.IsPart }
{
    match names.get(number as usize) {
        Some(name) => name_or_text(alloc, name, number),
        None => star_text(alloc, number),
    }
}

// Returns the name or, if it can't be a part, the text of the star.
fn name_or_text(alloc: Global, name: &Bytes, number: u32) -> Result<Bytes, AllocError>
    ensures value { IfOk result (λ meant. meant ≡ name_or_star number (Some name.now)) }
    ensures fits { IfOk result carried.IsPart }
{
    if !could_be_part(name.as_slice()) {
        return star_text(alloc, number);
    }
    slice_is_bytes(name.as_slice());
    name.copy(alloc)
}

// Returns a star's own text.
fn star_text(alloc: Global, number: u32) -> Result<Bytes, AllocError>
    ensures value { IfOk result (λ text. text ≡ spec.star_text number) }
    ensures fits { IfOk result carried.IsPart }
{
    let mut text = Vec::from_slice(alloc, b"*")?;
    push_decimal(&mut text, u64::from(number))?;
    Ok(Bytes::from_vec(text))
}

// Returns whether a mount may be asked for the name as a part of a path.
fn could_be_part(name: &[u8]) -> bool
    ensures { result ≡ spec.could_be_part name.now }
{
    !name.is_empty() && name.len() <= MAX_PART_BYTES && may_be_part(name)
}
