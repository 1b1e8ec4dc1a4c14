//! What is printed for the arguments of a form with a seed that are none: the first at fault, and the
//! remedy.

ghost use Rattle.std.specs.Prelude.{◌≤◌};

use crate::advice::{SCRIPT_BY_INPUT, WordFault, at};
use crate::bad_line::is_hexadecimal;

/// The remedies for arguments that a form with a seed doesn't take.
pub(crate) struct SeedForm {
    // For an argument in the place of its options, or if they are missing.
    options: &'static str,
    // For `--serial` after the seed.
    serial: &'static str,
    // For an argument there that is no option, as a file's name.
    file: &'static str,
}

static REPLAY: SeedForm = SeedForm {
    options: OPTIONS_OF_REPLAY,
    serial: SERIAL_FIRST,
    file: SCRIPT_BY_INPUT,
};

static LINKED: SeedForm = SeedForm {
    options: OPTIONS_OF_LINKED,
    serial: SERIAL_FIRST,
    file: "the script comes from standard input: fsc replay-linked --seed HEX64 < FILE",
};

static LINKED_IN_TURNS: SeedForm = SeedForm {
    options: OPTIONS_OF_LINKED,
    serial: ONE_SERIAL,
    file: "the script comes from standard input: fsc replay-linked --serial --seed HEX64 < FILE",
};

pub(crate) static DUMP: SeedForm = SeedForm {
    options: DUMP_TAKES,
    serial: DUMP_TAKES,
    file: "the script comes from standard input: fsc dump --seed HEX64 < FILE",
};

static CHECK: SeedForm = SeedForm {
    options: CHECK_TAKES,
    serial: CHECK_TAKES,
    file: "the script and its log come from standard input: fsc check --seed HEX64 < FILE",
};

static STRICT_CHECK: SeedForm = SeedForm {
    options: CHECK_TAKES,
    serial: CHECK_TAKES,
    file: "the script and its log come from standard input: fsc check --strict --seed HEX64 < FILE",
};

const DUMP_TAKES: &str = "dump takes a seed alone: fsc dump --seed HEX64";

const CHECK_TAKES: &str = "check takes a seed: fsc check --seed HEX64, or with --strict before it";

const OPTIONS_OF_REPLAY: &str = "replay has the options --serial and --seed HEX64, in this order";

const OPTIONS_OF_LINKED: &str =
    "replay-linked takes a seed: fsc replay-linked --seed HEX64, or with --serial before it";

const SERIAL_FIRST: &str = "--serial comes before --seed";

const ONE_SERIAL: &str = "one --serial is enough";

const SEED_DIGITS: usize = 64;

/// Returns the first argument at fault after `replay`.
pub(crate) fn fault_of_replay(words: &[String]) -> Option<WordFault> {
    match words {
        [option, behind @ ..] if option.as_str() == "--serial" => fault_of_any_seed(behind, 2),
        _ => fault_of_any_seed(words, 1),
    }
}

// Returns the first argument at fault of those of a replay from this position on, which are a seed or none.
fn fault_of_any_seed(words: &[String], place: usize) -> Option<WordFault>
    requires { place ≤ 2 }
{
    match words {
        [] => None,
        [option, behind @ ..] if option.as_str() == "--seed" => fault_of_digits(
            behind,
            place + 1,
            &REPLAY,
        ),
        [word, ..] => at(place, remedy_of_option(word.as_str())),
    }
}

// Returns the remedy for an argument in the place of an option.
fn remedy_of_option(word: &str) -> &'static str {
    if word == "--serial" {
        return ONE_SERIAL;
    }
    if word == "--summary" {
        return "--summary comes after gen NUMBER";
    }
    if word.starts_with("--seed=") {
        return "the seed is a word of its own: --seed HEX64";
    }
    if word.starts_with("-") {
        return OPTIONS_OF_REPLAY;
    }
    SCRIPT_BY_INPUT
}

/// Returns the first argument at fault after `replay-linked`.
pub(crate) fn fault_of_linked_arguments(words: &[String]) -> Option<WordFault> {
    match words {
        [option, behind @ ..] if option.as_str() == "--serial" => fault_of_seed(
            behind,
            2,
            &LINKED_IN_TURNS,
        ),
        _ => fault_of_seed(words, 1, &LINKED),
    }
}

/// Returns the first argument at fault after `check`.
pub(crate) fn fault_of_check(words: &[String]) -> Option<WordFault> {
    match words {
        [option, behind @ ..] if option.as_str() == "--strict" => fault_of_seed(
            behind,
            2,
            &STRICT_CHECK,
        ),
        _ => fault_of_seed(words, 1, &CHECK),
    }
}

/// Returns the first argument at fault of those from this position on, which are a seed alone of this form.
pub(crate) fn fault_of_seed(words: &[String], place: usize, form: &SeedForm) -> Option<WordFault>
    requires { place ≤ 2 }
{
    match words {
        [option, behind @ ..] if option.as_str() == "--seed" => fault_of_digits(
            behind,
            place + 1,
            form,
        ),
        _ => at(place, form.options),
    }
}

// Returns the first argument at fault of those after `--seed`, from this position on.
fn fault_of_digits(words: &[String], place: usize, form: &SeedForm) -> Option<WordFault>
    requires { place ≤ 3 }
{
    match words {
        [] => at(place, "64 hexadecimal digits come after --seed"),
        [seed, ..] if !is_seed(seed.as_str()) => at(place, remedy_of_seed(seed.as_str())),
        [_] => None,
        [_, word, ..] => at(place + 1, remedy_behind_seed(word.as_str(), form)),
    }
}

fn is_seed(word: &str) -> bool {
    word.len() == SEED_DIGITS && is_hexadecimal(word.as_bytes())
}

fn remedy_of_seed(word: &str) -> &'static str {
    if word.starts_with("0x") {
        return "a seed is 64 hexadecimal digits, without 0x";
    }
    "a seed is 64 hexadecimal digits"
}

// Returns the remedy for an argument after the seed.
fn remedy_behind_seed(word: &str, form: &SeedForm) -> &'static str {
    match word {
        "--serial" => form.serial,
        "--seed" => "one seed is enough",
        option if option.starts_with("-") => "nothing comes after the seed",
        _ => form.file,
    }
}
