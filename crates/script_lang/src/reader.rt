//! The reader of scripts: the script that a text spells, or its first line outside the grammar.

ghost use Rattle.std.specs.Prelude.{◌<◌, ◌≤◌, ◌^◌, length, IfOk};
ghost use Rattle.std.specs.Option.{option_map};
ghost use Rattle.script_lang.specs.declared.limits.TheConstants.{MAX_CALLERS};
ghost use Rattle.script_lang.specs.Script.{parsed_script, Reads};
ghost use Rattle.script_lang.specs.Commands.{verb_of};
ghost use Rattle.script_lang.specs.Statements.{statement_of_name, statement_of, statement_of_words};
ghost use Rattle.script_lang.specs.Reading.{after_line, with_section, AddsCommand, AddsStatement, TakesLine};
ghost use Rattle.script_lang.specs.declared.statements.Statement.TheVariants.{Order};

use crate::commands::{Command, CommandList, Script, Section};
use crate::limits::MAX_CALLERS;
use crate::statements::{is_blank_or_comment, read_uid};
use crate::verbs::read_verb;
use crate::words::Words;
use std::alloc::{AllocError, Global};
use text_words::{line_count, next_line};
use thiserror::Error;

/// Why a script wasn't read.
#[derive(Clone, Copy, Debug, PartialEq, Eq, Error)]
pub enum ScriptFault {
    /// The first line outside the grammar, counted from 1.
    #[error("line {line} is outside the grammar")]
    BadLine { line: u32 },
    /// The reader is out of memory.
    #[error("out of memory")]
    NoMemory,
}

impl From<AllocError> for ScriptFault {
    ghost use Rattle.std.specs.Prelude.{◌≡◌};
    ghost use Rattle.script_lang.specs.declared.reader.ScriptFault.TheVariants.{NoMemory};

    ghost from_gives = { λ _ fault. fault ≡ NoMemory };

    fn from(_error: AllocError) -> ScriptFault {
        ScriptFault::NoMemory
    }
}

/// Reads a script of fewer than 2^32 bytes, so that the number of each line fits. Returns `BadLine`
/// exactly when a line is outside the grammar, with the number of the first. `NoMemory` is possible for
/// any text.
pub fn read_script(alloc: Global, text: &[u8]) -> Result<Script, ScriptFault>
    requires { length text.now < 2 ^ 32 }
    ensures value { Reads result (parsed_script text.now) }
    ensures callers { IfOk result (λ script. length script ≤ MAX_CALLERS) }
{
    let mut sections = Vec::new(alloc);
    let mut rest = text;
    let mut number: u32 = 0;
    'lines: while !rest.is_empty() {
        let line = next_line(rest);
        number += 1;
        if !line.ended {
            return Err(ScriptFault::BadLine { line: number });
        }
        take_line(alloc, &mut sections, number, line.bytes, line.rest)?;
        rest = line.rest;
    }
    Ok(Script::from_vec(sections))
}

// Adds the statement of the line with that number to the sections so far. `behind` is the text after the
// line.
fn take_line(
    alloc: Global,
    sections: &mut Vec<Section>,
    number: u32,
    line: &[u8],
    behind: &[u8],
) -> Result<(), ScriptFault>
    ensures { TakesLine number
        (after_line number sections.old.items (statement_of line.now)) result sections.new.items }
{
    if add_line(alloc, sections, number, line, behind)? {
        Ok(())
    } else {
        Err(ScriptFault::BadLine { line: number })
    }
}

// Adds the statement of a line to the sections so far. Returns false if the line is not allowed after
// them. A command goes from its form right into its section: it is large, and each function that passes
// it on copies it.
fn add_line(
    alloc: Global,
    sections: &mut Vec<Section>,
    number: u32,
    line: &[u8],
    behind: &[u8],
) -> Result<bool, AllocError>
    ensures { IfOk result (AddsStatement
        (after_line number sections.old.items (statement_of line.now)) sections.new.items) }
{
    if is_blank_or_comment(line) {
        return Ok(true);
    }
    add_words(alloc, sections, number, &mut Words::new(line), behind)
}

// Adds the statement of a line's words.
fn add_words(
    alloc: Global,
    sections: &mut Vec<Section>,
    number: u32,
    words: &mut Words<'_>,
    behind: &[u8],
) -> Result<bool, AllocError>
    ensures { IfOk result (AddsStatement
        (after_line number sections.old.items (statement_of_words words.old)) sections.new.items) }
{
    match words.next() {
        Some(name) => add_named(alloc, sections, number, name, words, behind),
        None => Ok(false),
    }
}

// Adds the statement of a name and the words after it.
fn add_named(
    alloc: Global,
    sections: &mut Vec<Section>,
    number: u32,
    name: &[u8],
    words: &mut Words<'_>,
    behind: &[u8],
) -> Result<bool, AllocError>
    ensures { IfOk result (AddsStatement
        (after_line number sections.old.items (statement_of_name name.now words.old)) sections.new.items) }
{
    if name == b"caller".as_slice() {
        return match read_uid(words) {
            Some(uid) => add_section(alloc, sections, uid, line_count(behind)),
            None => Ok(false),
        };
    }
    add_command(alloc, sections, number, name, words)
}

// Adds a section with capacity for `room` commands, so that they needn't move when others are added: a
// move would leave copies of their secrets. Returns false if there are as many sections as allowed.
fn add_section(
    alloc: Global,
    sections: &mut Vec<Section>,
    uid: u32,
    room: usize,
) -> Result<bool, AllocError>
    ensures { IfOk result (AddsStatement (with_section sections.old.items uid) sections.new.items) }
{
    if sections.len() < MAX_CALLERS {
        let commands = CommandList::from_vec(Vec::with_capacity(alloc, room)?);
        sections.push(Section { uid, commands })?;
        return Ok(true);
    }
    Ok(false)
}

// Adds a command to the last section. Returns false if there is no section, or the words are no command.
fn add_command(
    alloc: Global,
    sections: &mut Vec<Section>,
    number: u32,
    name: &[u8],
    words: &mut Words<'_>,
) -> Result<bool, AllocError>
    ensures { IfOk result (AddsStatement (after_line number sections.old.items
        (option_map Order (verb_of name.now words.old))) sections.new.items) }
{
    match sections.last_mut() {
        Some(section) => push_command(alloc, &mut section.commands, number, name, words),
        None => Ok(false),
    }
}

// Reads a command and appends it. Returns false if the words are no command.
fn push_command(
    alloc: Global,
    commands: &mut CommandList,
    number: u32,
    name: &[u8],
    words: &mut Words<'_>,
) -> Result<bool, AllocError>
    ensures { IfOk result (AddsCommand number (verb_of name.now words.old) commands.old commands.new) }
{
    match read_verb(alloc, name, words) {
        Ok(Some(verb)) => {
            commands.push(Command { line: number, verb })?;
            Ok(true)
        }
        Ok(None) => Ok(false),
        Err(fault) => Err(fault),
    }
}
