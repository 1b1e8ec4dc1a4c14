//! Laws of generated scripts, as functions that do nothing: their contracts are the laws.

ghost use Rattle.std.specs.Prelude.{◌≡◌, ℕ, Ok};
ghost use Rattle.script_lang.specs.Script.{parsed_script};
ghost use Rattle.script_lang.specs.Spelled.{IsSpelled};
ghost use Rattle.load_gen.specs.Generated.{generated_text, generated_script};

/// Does nothing. Its contract is the law that each generated text is in the grammar, and is parsed as the
/// generated script.
pub fn generated_scripts_are_spelled()
    ensures spelled { (number : ℕ) → IsSpelled (generated_script number) }
    ensures reads_back { (number : ℕ) → parsed_script (generated_text number) ≡ Ok (generated_script number) }
{}
