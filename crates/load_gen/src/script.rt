//! Generated scripts, and their texts.

ghost use Rattle.std.specs.Prelude.{◌≡◌, IfOk, Ok};
ghost use Rattle.script_lang.specs.Script.{parsed_script};
ghost use Rattle.script_lang.specs.Spelled.{IsSpelled};
ghost use Rattle.load_gen.specs.Generated.{generated_text, generated_script};

use crate::callers::section;
use crate::numbers::Numbers;
use item_list::{Bytes, Items};
use script_lang::{Script, write_script};
use std::alloc::{AllocError, Global};

// The number of callers of a generated script.
const CALLERS: u8 = 8;

/// Returns the text of the script that is generated from the number. The only error is out of memory.
pub fn generate(alloc: Global, number: u32) -> Result<Bytes, AllocError>
    ensures value { IfOk result (λ text. text ≡ generated_text number) }
    ensures reads_back { IfOk result (λ text. parsed_script text ≡ Ok (generated_script number)) }
{
    let script = generate_script(alloc, number)?;
    let text = write_script(alloc, &script)?;
    Ok(text)
}

/// Returns the script that is generated from the number. The only error is out of memory.
pub fn generate_script(alloc: Global, number: u32) -> Result<Script, AllocError>
    ensures value { IfOk result (λ script. script ≡ generated_script number) }
    ensures spelled { IfOk result (λ script. IsSpelled script) }
{
    let mut numbers = Numbers::numbers_after(number);
    let mut script = Items::new(alloc);
    'callers: for caller in 0..CALLERS {
        script.push(section(alloc, caller, &mut numbers)?)?;
    }
    Ok(script)
}
