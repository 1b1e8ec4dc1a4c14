//! One caller of a generated script.

ghost use Rattle.std.specs.Prelude.{◌≡◌, ◌<◌, ◌+◌, ◌^◌, IfOk, OnOk, length};
ghost use Rattle.load_gen.specs.Callers as spec;
ghost use Rattle.load_gen.specs.Numbers.{number_after};

use crate::numbers::Numbers;
use crate::operations::operation;
use crate::words::{added_key, directory, file, raw_key};
use item_list::Items;
use policy_ctx::Pad;
use script_lang::{Command, CommandList, Section, Settings, Verb};
use std::alloc::{AllocError, Global};

// The number of a caller's pseudorandom commands.
const DRAWN: u32 = 200;

// The number of a caller's lines: its own, five first ones, the pseudorandom ones, and two last ones.
const LINES: u32 = 1 + 5 + DRAWN + 2;

// The user of the first caller. The callers have four users in turn.
const FIRST_USER: u32 = 1000;

const USERS: u8 = 4;

// The caller of this number, with the commands that the numbers choose.
pub(crate) fn section(
    alloc: Global,
    caller: u8,
    numbers: &mut Numbers,
) -> Result<Section, AllocError>
    requires { caller < 8 }
    ensures value { IfOk result (λ section. section ≡ spec.section caller numbers.old.last) }
    ensures gone_on { OnOk result (numbers.new.last ≡ number_after 200 numbers.old.last) }
{
    let verbs = verbs(alloc, caller, numbers)?;
    let first = LINES * u32::from(caller) + 2;
    Ok(Section {
        uid: FIRST_USER + u32::from(caller % USERS),
        commands: in_lines(alloc, first, verbs)?,
    })
}

// The commands of the caller.
fn verbs(alloc: Global, caller: u8, numbers: &mut Numbers) -> Result<Vec<Verb>, AllocError>
    requires { caller < 8 }
    ensures value { IfOk result (λ verbs. verbs.items ≡ spec.verbs caller numbers.old.last) }
    ensures gone_on { OnOk result (numbers.new.last ≡ number_after 200 numbers.old.last) }
{
    let mut verbs = first_verbs(alloc, caller)?;
    'drawn: for _ in 0..DRAWN {
        let drawn = numbers.next_upper_bits();
        verbs.push(operation(alloc, caller, drawn)?)?;
    }
    verbs.push(Verb::Close(0))?;
    verbs.push(Verb::RemoveKey(raw_key(caller)))?;
    Ok(verbs)
}

// The commands before the pseudorandom ones, for an encrypted directory with an open file.
fn first_verbs(alloc: Global, caller: u8) -> Result<Vec<Verb>, AllocError>
    requires { caller < 8 }
    ensures { IfOk result (λ verbs. verbs.items ≡ spec.first_verbs caller) }
{
    let mut verbs = Vec::new(alloc);
    verbs.push(Verb::AddKey(added_key(alloc, caller)?))?;
    verbs.push(Verb::Mkdir(directory(alloc, caller)?))?;
    verbs.push(Verb::SetPolicy {
        path: directory(alloc, caller)?,
        key: raw_key(caller),
        settings: Settings {
            pad: Pad::P32,
            unit: None,
        },
    })?;
    verbs.push(Verb::Create(file(alloc, caller, 0)?))?;
    verbs.push(Verb::Open(file(alloc, caller, 0)?))?;
    Ok(verbs)
}

// Commands in consecutive lines, of which the first has this number.
fn in_lines(alloc: Global, first: u32, verbs: Vec<Verb>) -> Result<CommandList, AllocError>
    requires { first + length verbs.items < 2 ^ 32 }
    ensures { IfOk result (λ commands. commands ≡ spec.in_lines first verbs.items) }
{
    let mut commands = Items::new(alloc);
    let mut line = first;
    'verbs: for verb in verbs {
        commands.push(Command { line, verb })?;
        line += 1;
    }
    Ok(commands)
}
