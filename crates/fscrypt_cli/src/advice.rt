//! What is printed for a command line that is no form: its first argument at fault, and the remedy.

ghost use Rattle.std.specs.Prelude.{◌<◌, length};

use crate::asked::Asked;
use crate::bad_line::shown;
use crate::help::remark;
use crate::inspect_advice::fault_of_inspect;
use crate::seed_advice::{
    DUMP, fault_of_check, fault_of_linked_arguments, fault_of_replay, fault_of_seed,
};
use fsc_tool::Status;
use std::alloc::Global;
use std::io::IsTerminal;
use text_words::decimal_value;

/// An argument at fault, by its position from 0, and the remedy. The position after the last argument means
/// that one is missing.
#[derive(Clone, Copy)]
pub(crate) struct WordFault {
    pub place: usize,
    pub remedy: &'static str,
}

const NO_WORDS: &str = "give a form: fsc replay < SCRIPT runs a script; fsc --help lists the forms";

const HELP_REMEDY: &str = "--help lists the forms and commands";

const VERSION_REMEDY: &str = "--version prints the version";

const REPLAY_FIRST: &str = "replay comes first: fsc replay --serial --seed HEX64";

// First arguments that are no form, and the remedy for each.
static NO_FORMS: [(&str, &str); 9] = [
    ("-h", HELP_REMEDY),
    ("-?", HELP_REMEDY),
    ("help", HELP_REMEDY),
    ("-V", VERSION_REMEDY),
    ("-v", VERSION_REMEDY),
    ("version", VERSION_REMEDY),
    ("--serial", REPLAY_FIRST),
    ("--seed", REPLAY_FIRST),
    (
        "--summary",
        "gen NUMBER comes first: fsc gen NUMBER --summary",
    ),
];

pub(crate) const SCRIPT_BY_INPUT: &str = "the script comes from standard input: fsc replay < FILE";

const DIGITS_OF_HALF_A_SEED: usize = 32;

const NUMBER_OF_GEN: &str = "gen takes a number from 0 to 4294967295, without leading zeros";

/// Prints on standard error that a script or an image is expected, if standard input is a terminal.
pub(crate) fn print_waiting_notice(rt: &HostRuntime, words: &[String], asked: Asked) {
    let Some(input) = asked.input() else {
        return;
    };
    if fault_of(words).is_none() && rt.stdin().is_terminal() {
        let awaited = input.awaited;
        let _ = eprintln!(rt; "fsc: waiting for {awaited} ended by Ctrl-D; or give it by < FILE");
    }
}

/// Prints on standard error that the arguments are no form: the number of the first at fault, the argument
/// itself, and the remedy. The argument itself is not printed if it may be a seed, or there is no memory
/// for it.
pub(crate) fn advise_arguments(rt: &HostRuntime, words: &[String]) {
    let _ = rt.eprintln(Status::Usage);
    match fault_of(words) {
        Some(fault) if fault.place < words.len() => report_word(rt, words, fault),
        Some(fault) => remark(rt, fault.remedy),
        None => {}
    }
}

// Prints the argument at fault.
fn report_word(rt: &HostRuntime, words: &[String], fault: WordFault)
    requires { fault.place < length words.now }
{
    let number = fault.place + 1;
    let remedy = fault.remedy;
    let _ = match word_to_show(rt.alloc(), words, fault.place) {
        Some(word) => eprintln!(rt; "fsc: word {number}, \"{word}\": {remedy}"),
        None => eprintln!(rt; "fsc: word {number}: {remedy}"),
    };
}

// Returns the argument to print, or `None` if it may be a seed, or there is no memory.
fn word_to_show(alloc: Global, words: &[String], place: usize) -> Option<String>
    requires { place < length words.now }
{
    if may_be_seed(words, place) {
        return None;
    }
    shown(alloc, words[place].as_bytes()).ok()
}

// Whether the argument may be a seed, or contain one: it follows `--seed`, begins with `--seed=`, or has as
// many hexadecimal digits as half a seed.
fn may_be_seed(words: &[String], place: usize) -> bool
    requires { place < length words.now }
{
    let word = words[place].as_str();
    let is_digit = |byte: &&u8| byte.is_ascii_hexdigit();
    place > 0 && words[place - 1].as_str() == "--seed"
        || word.starts_with("--seed=")
        || word.as_bytes().iter().filter(is_digit).count() >= DIGITS_OF_HALF_A_SEED
}

// Returns the first argument at fault, or `None` if the arguments are a form.
fn fault_of(words: &[String]) -> Option<WordFault> {
    let [first, behind @ ..] = words else {
        return at(0, NO_WORDS);
    };
    match first.as_str() {
        "replay" => fault_of_replay(behind),
        "replay-linked" => fault_of_linked_arguments(behind),
        "gen" => fault_of_gen(behind),
        "dump" => fault_of_seed(behind, 1, &DUMP),
        "check" => fault_of_check(behind),
        "inspect" => fault_of_inspect(behind),
        "--help" | "--version" if behind.is_empty() => None,
        "--help" | "--version" => at(1, "nothing comes after --help and --version"),
        word => at(0, remedy_of_first(word)),
    }
}

pub(crate) fn at(place: usize, remedy: &'static str) -> Option<WordFault> {
    Some(WordFault { place, remedy })
}

// Returns the remedy for a first argument that is none.
fn remedy_of_first(word: &str) -> &'static str {
    for &(no_form, remedy) in &NO_FORMS {
        if word == no_form {
            return remedy;
        }
    }
    if is_path(word) {
        return SCRIPT_BY_INPUT;
    }
    "a form begins with replay, replay-linked, gen, dump, inspect, check, --help or --version"
}

// Whether the argument looks like the name of a file.
pub(crate) fn is_path(word: &str) -> bool {
    word.as_bytes()
        .iter()
        .any(|byte| *byte == b'.' || *byte == b'/')
}

// Returns the first argument at fault after `gen`.
fn fault_of_gen(words: &[String]) -> Option<WordFault> {
    match words {
        [] => at(1, "a number from 0 to 4294967295 comes after gen"),
        [number, ..] if decimal_value(number.as_bytes()).is_none() => at(1, NUMBER_OF_GEN),
        [_, option, ..] if option.as_str() != "--summary" => at(
            2,
            "after the number of gen comes --summary alone",
        ),
        [_] | [_, _] => None,
        _ => at(3, "nothing comes after --summary"),
    }
}
