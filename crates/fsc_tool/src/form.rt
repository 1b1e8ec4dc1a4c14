//! The arguments of the command line.

ghost use Rattle.std.specs.Prelude.{◌≡◌, ◌∷◌, [], map, string_bytes};
ghost use Rattle.fsc_tool.specs.ReplayForms as spec;
ghost use Rattle.fsc_tool.specs.Forms.{checked_of, form_of, generated_after, generated_of};
ghost use Rattle.fsc_tool.specs.Forms.{inspected_of};
ghost use Rattle.fsc_tool.specs.ReplayForms.{linked_of, replay_of, given_seed, seeding_of};
ghost use Rattle.fsc_tool.specs.Forms.{without_threads};

use crate::seed::wipe_seeding;
use byte_words::wipe;
use fsc_keys::RawKey;
use fsc_session::scrub_stack;
use script_words::{KeyRef, read_key_ref};
use std::alloc::Global;
use std::mem;
use text_words::{decimal_value, hex_bytes};

/// How the callers of a script run.
#[derive(Clone, Copy)]
pub(crate) enum Way {
    /// They take turns, command by command.
    InTurn,
    /// Each runs in a thread of its own.
    InThreads,
}

/// Where a run's seed comes from. Neither `Clone` nor `Copy`: a value is only moved.
#[derive(Drop)]
pub(crate) enum Seeding {
    /// The arguments give it: `--seed HEX64`.
    Given([u8; 32]),
    /// No argument gives it; the seed source does.
    Asked,
}

/// What the arguments ask for.
#[derive(Drop)]
pub(crate) enum ToolForm {
    /// To replay the script that the source gives.
    Replay { way: Way, seeding: Seeding },
    /// To write the script that the number gives.
    Generate(u32),
    /// To write the summary of a run of that script.
    Summarise(u32),
    /// To write the image of the mount that a run of the source's script with this seed leaves.
    Dump([u8; 32]),
    /// To list the image that the source gives, with this raw key or without one.
    Inspect(Option<RawKey>),
    /// To check the log after the script in the source's input, against runs with this seed.
    Check([u8; 32]),
    /// The same, against runs in which nothing was out of memory.
    CheckStrictly([u8; 32]),
    /// To replay the script that the source gives on two mounts, with this seed.
    ReplayLinked { way: Way, seed: [u8; 32] },
}

// Stores in `form` what the arguments ask for, or `None` if they are no form. Other copies of a seed that
// this makes are in frames below the caller's, which are wiped afterwards.
pub(crate) fn read_form(words: &[String], form: &mut Option<ToolForm>)
    ensures { form.new ≡ form_of (map string_bytes words.now) }
{
    read_form_unscrubbed(words, form);
    scrub_stack();
}

#[inline(never)]
fn read_form_unscrubbed(words: &[String], form: &mut Option<ToolForm>)
    ensures { form.new ≡ form_of (map string_bytes words.now) }
{
    *form = form_of(words);
}

// Returns what the arguments ask for, or `None` if they are no form.
fn form_of(words: &[String]) -> Option<ToolForm>
    ensures { result ≡ form_of (map string_bytes words.now) }
{
    let (verb, words) = words.split_first()?;
    form_of_rest(verb.as_str(), words)
}

// Returns the form of the verb and the arguments after it.
fn form_of_rest(verb: &str, words: &[String]) -> Option<ToolForm>
    ensures { result ≡ form_of (verb.now ∷ map string_bytes words.now) }
{
    match verb {
        "replay" => read_replay(words),
        "gen" => read_generated(words),
        "dump" => read_given_seed(words).map(ToolForm::Dump),
        "inspect" => read_inspected(words),
        "check" => read_checked(words),
        "replay-linked" => read_linked(words),
        _ => None,
    }
}

// Wipes and removes the arguments, since one of them may be a seed. Allocates nothing.
pub(crate) fn wipe_words(alloc: Global, words: &mut Vec<String>)
    ensures { words.new.items ≡ [] }
{
    'words: for word in mem::replace(words, Vec::new(alloc)) {
        let mut text = word.into_bytes();
        wipe(text.as_mut_slice());
    }
}

// Replaces a form whose callers run in threads by `None`, and wipes its seed.
pub(crate) fn leave_threads(form: &mut Option<ToolForm>)
    ensures { form.new ≡ without_threads form.old }
{
    match form {
        Some(
            ToolForm::Replay {
                way: Way::InThreads,
                seeding,
            },
        ) => {
            wipe_seeding(seeding);
            *form = None;
        }
        Some(
            ToolForm::ReplayLinked {
                way: Way::InThreads,
                seed,
            },
        ) => {
            wipe(seed);
            *form = None;
        }
        _ => {}
    }
}

// Returns the form of the arguments after `replay`.
fn read_replay(words: &[String]) -> Option<ToolForm>
    ensures { result ≡ replay_of (map string_bytes words.now) }
{
    if words.is_empty() {
        return replayed(Way::InThreads, Some(Seeding::Asked));
    }
    if words[0].as_str() == "--serial" {
        return replayed(Way::InTurn, read_seeding(&words[1..]));
    }
    replayed(Way::InThreads, read_seeding(words))
}

fn replayed(way: Way, seeding: Option<Seeding>) -> Option<ToolForm>
    ensures { result ≡ spec.replay_form way seeding }
{
    let seeding = seeding?;
    Some(ToolForm::Replay { way, seeding })
}

// Returns where the seed comes from, by the arguments after those of the run.
fn read_seeding(words: &[String]) -> Option<Seeding>
    ensures { result ≡ seeding_of (map string_bytes words.now) }
{
    if words.is_empty() {
        return Some(Seeding::Asked);
    }
    read_given_seed(words).map(Seeding::Given)
}

// Returns the seed that the arguments give in 64 hexadecimal digits.
fn read_given_seed(words: &[String]) -> Option<[u8; 32]>
    ensures { result ≡ given_seed (map string_bytes words.now) }
{
    if words.len() != 2 {
        return None;
    }
    if words[0].as_str() != "--seed" {
        return None;
    }
    hex_bytes(words[1].as_bytes())
}

// Returns the form of the arguments after `replay-linked`.
fn read_linked(words: &[String]) -> Option<ToolForm>
    ensures { result ≡ linked_of (map string_bytes words.now) }
{
    if words.is_empty() {
        return None;
    }
    if words[0].as_str() == "--serial" {
        return linked_replay_form(Way::InTurn, read_given_seed(&words[1..]));
    }
    linked_replay_form(Way::InThreads, read_given_seed(words))
}

fn linked_replay_form(way: Way, seed: Option<[u8; 32]>) -> Option<ToolForm>
    ensures { result ≡ spec.linked_replay_form way seed }
{
    let seed = seed?;
    Some(ToolForm::ReplayLinked { way, seed })
}

// Returns the form of the arguments after `check`.
fn read_checked(words: &[String]) -> Option<ToolForm>
    ensures { result ≡ checked_of (map string_bytes words.now) }
{
    if words.is_empty() {
        return None;
    }
    if words[0].as_str() == "--strict" {
        return read_given_seed(&words[1..]).map(ToolForm::CheckStrictly);
    }
    read_given_seed(words).map(ToolForm::Check)
}

// Returns the form of the arguments after `gen`.
fn read_generated(words: &[String]) -> Option<ToolForm>
    ensures { result ≡ generated_of (map string_bytes words.now) }
{
    if words.is_empty() {
        return None;
    }
    match decimal_value(words[0].as_bytes()) {
        Some(number) => read_behind_number(&words[1..], number),
        None => None,
    }
}

// Returns the form of the arguments after the number.
fn read_behind_number(words: &[String], number: u32) -> Option<ToolForm>
    ensures { result ≡ generated_after (map string_bytes words.now) number }
{
    if words.is_empty() {
        return Some(ToolForm::Generate(number));
    }
    if words.len() != 1 {
        return None;
    }
    if words[0].as_str() != "--summary" {
        return None;
    }
    Some(ToolForm::Summarise(number))
}

// Returns the form of the arguments after `inspect`.
fn read_inspected(words: &[String]) -> Option<ToolForm>
    ensures { result ≡ inspected_of (map string_bytes words.now) }
{
    if words.is_empty() {
        return Some(ToolForm::Inspect(None));
    }
    if words.len() != 1 {
        return None;
    }
    match read_key_ref(words[0].as_bytes()) {
        Some(KeyRef::Raw(raw)) => Some(ToolForm::Inspect(Some(raw))),
        _ => None,
    }
}
