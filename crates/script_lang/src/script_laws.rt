//! Laws of scripts and their texts: each is an empty function whose contract is the law.

ghost use Rattle.std.specs.Prelude.{◌≡◌, ◌↔◌, List, Ok};
ghost use Rattle.script_lang.specs.declared.commands.Section.{Section};
ghost use Rattle.script_lang.specs.Script.{parsed_script};
ghost use Rattle.script_lang.specs.Writing.{script_text};
ghost use Rattle.script_lang.specs.Spelled.{IsSpelled, IsWritable};

/// The text that is written of a script is in the grammar, and spells that script.
pub fn what_is_written_is_a_script()
    ensures { (script : List Section) → IsSpelled script → parsed_script (script_text script) ≡ Ok script }
{}

/// Two different scripts have different texts.
pub fn distinct_scripts_have_distinct_texts()
    ensures { (one other : List Section) → IsSpelled one → IsSpelled other
        → script_text one ≡ script_text other → one ≡ other }
{}

/// A script is spelled by some text exactly when it has at most eight callers, keys and users that words
/// can spell, and a line for each caller and command.
pub fn spelled_scripts_are_the_writable_ones()
    ensures { (script : List Section) → IsSpelled script ↔ IsWritable script }
{}
