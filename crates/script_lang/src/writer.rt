//! The writer of scripts: the text that spells a script, with each command in its own line.

ghost use Rattle.std.specs.Prelude.{◌≡◌, ◌≤◌, ◌+◌, ◌-◌, ◌^◌, ◌++◌, Ok, IfOk, OnOk, codes};
ghost use Rattle.script_lang.specs.Script.{parsed_script};
ghost use Rattle.script_lang.specs.Writing.{caller_text, commands_text};
ghost use Rattle.script_lang.specs.Writing.{first_free_line, empty_lines, script_text};
ghost use Rattle.script_lang.specs.Spelled.{IsSpelled};

use crate::commands::{CommandList, Script};
use crate::verb_writer::write_verb;
use item_list::Bytes;
use std::alloc::{AllocError, Global};
use text_words::push_decimal;

/// Writes a script as a text that reads back as it. Each command is in its own line again, and each
/// caller is right after the last line before it. The other lines are empty.
pub fn write_script(alloc: Global, script: &Script) -> Result<Bytes, AllocError>
    requires { IsSpelled script.now }
    ensures value { IfOk result (λ text. text ≡ script_text script.now) }
    ensures reads_back { IfOk result (λ text. parsed_script text ≡ Ok script.now) }
{
    let mut text = Vec::new(alloc);
    let mut line = 1;
    'sections: for section in script.as_slice() {
        write_caller(&mut text, section.uid)?;
        line = write_commands(alloc, &mut text, line + 1, &section.commands)?;
    }
    Ok(Bytes::from_vec(text))
}

// Writes the line of a caller.
fn write_caller(text: &mut Vec<u8>, uid: u32) -> Result<(), AllocError>
    ensures { OnOk result (text.new.items ≡ text.old.items ++ (caller_text uid ++ codes "\n")) }
{
    text.extend_from_slice(b"caller ")?;
    push_decimal(text, u64::from(uid))?;
    text.push(b'\n')?;
    Ok(())
}

// Writes commands in their own lines, from the first free line `first` on. Returns the next free line.
fn write_commands(
    alloc: Global,
    text: &mut Vec<u8>,
    first: u64,
    commands: &CommandList,
) -> Result<u64, AllocError>
    ensures written { OnOk result (text.new.items ≡ text.old.items ++ commands_text first commands.now) }
    ensures next { IfOk result (λ next. next ≡ first_free_line first commands.now) }
    ensures bound { IfOk result (λ next. next ≤ first + 2 ^ 32) }
{
    let mut next = first;
    'commands: for command in commands.as_slice() {
        let line = u64::from(command.line);
        write_empty_lines(text, line.saturating_sub(next))?;
        write_verb(alloc, text, &command.verb)?;
        text.push(b'\n')?;
        next = line + 1;
    }
    Ok(next)
}

// Writes `count` empty lines.
fn write_empty_lines(text: &mut Vec<u8>, count: u64) -> Result<(), AllocError>
    ensures { OnOk result (text.new.items ≡ text.old.items ++ empty_lines count) }
{
    'empty: for _ in 0..count {
        text.push(b'\n')?;
    }
    Ok(())
}
