//! Laws of faults: each is an empty function whose contract is the law.

ghost use Rattle.std.specs.Prelude.{◌≡◌, ℕ, List};
ghost use Rattle.std.specs.Option.{option_map};
ghost use Rattle.std.specs.Result.{result_err};
ghost use Rattle.script_faults.specs.KindLaws.{CommandsHaveWordsOfTheirKinds};
ghost use Rattle.script_faults.specs.KindLaws.{WordsOfAllKindsMakeCommands};
ghost use Rattle.script_faults.specs.LineFaults.{first_fault};
ghost use Rattle.script_lang.specs.Script.{parsed_script};

/// The first line at fault is the one at which reading ends, and a script has none.
pub fn faults_are_where_reading_ends()
    ensures { (text : List ℕ) → option_map (λ found. found.line) (first_fault text)
        ≡ result_err (parsed_script text) }
{}

/// A fault requires of a word what the grammar requires: the words of a command are each of their kind,
/// and words of all kinds make a command.
pub fn kinds_are_those_of_the_grammar()
    ensures each { CommandsHaveWordsOfTheirKinds }
    ensures all { WordsOfAllKindsMakeCommands }
{}
