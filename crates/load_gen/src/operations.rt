//! The command that a number chooses.

ghost use Rattle.std.specs.Prelude.{◌≡◌, ◌<◌, IfOk};
ghost use Rattle.load_gen.specs.Operations as spec;

use crate::words::{added_key, directory, file, moved_file, raw_key};
use script_lang::Verb;
use std::alloc::{AllocError, Global};

// The number of bytes of a file that are written or read at a time.
const PART_BYTES: u32 = 4096;

// The distance of the offsets at which files are written and read, in bytes.
const PART_STEP: u32 = 1000;

// The command that a value chooses for a caller: its last digit is the kind, and the digits before it
// decide the file and the offset.
pub(crate) fn operation(alloc: Global, caller: u8, drawn: u64) -> Result<Verb, AllocError>
    requires { caller < 8 }
    ensures { IfOk result (λ verb. verb ≡ spec.operation caller drawn) }
{
    let digit = (drawn / 10 % 8) as u8;
    let offset = PART_STEP * u32::from(digit);
    match drawn % 10 {
        0 => Ok(Verb::Create(file(alloc, caller, digit)?)),
        1 => Ok(Verb::Fill {
            handle: 0,
            offset,
            len: PART_BYTES,
            byte: digit,
        }),
        2 => Ok(Verb::Read {
            handle: 0,
            offset,
            len: PART_BYTES,
        }),
        3 => Ok(Verb::List {
            path: directory(alloc, caller)?,
            start: None,
        }),
        4 => Ok(Verb::Stat(file(alloc, caller, digit)?)),
        5 => Ok(Verb::KeyStatus(raw_key(caller))),
        6 => Ok(Verb::AddKey(added_key(alloc, caller)?)),
        7 => Ok(Verb::RemoveKey(raw_key(caller))),
        8 => Ok(Verb::Rename {
            old_path: file(alloc, caller, digit)?,
            new_path: moved_file(alloc, caller, digit)?,
        }),
        _ => Ok(Verb::Unlink(moved_file(alloc, caller, digit)?)),
    }
}
