//! The words that are names of commands.

ghost use Rattle.std.specs.Prelude.{◌≡◌};
ghost use Rattle.script_faults.specs.GrammarFaults as spec;

use script_lang::CommandName;

/// Returns whether the word is the name of a command.
pub fn is_usable(word: &[u8]) -> bool
    ensures { result ≡ spec.is_usable word.now }
{
    CommandName::read(word).is_some()
}
